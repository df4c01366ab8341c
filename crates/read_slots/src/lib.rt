// The operand in each slot of a form, out of the bytes of an instruction.
#![tactic(auto)]

ghost use Rattle.std.specs.Prelude.{◌≡◌, true, false, ◌+◌, ◌%◌, ◌≤◌, eqb, get_or};
ghost use Rattle.mrc_compiler.specs.Choose.{both, by_size};
ghost use Rattle.mrc_compiler.specs.Operations.{same_operation};
ghost use Rattle.mrc_compiler.specs.declared.operations.Operation.TheVariants.{XCHG, TEST};
ghost use Rattle.x86.specs.declared.Operand.TheVariants.{Register, Near};
ghost use Rattle.x86.specs.Instructions.{instruction, default_segment, in_effect, base, canonical};
ghost use Rattle.x86.specs.Reading.{address_length, allows_second, in_memory, somewhere, word_at, sign_extended, displacement_at, memory_at, rm_at, at};
ghost use Rattle.read_slots.specs.Slots.{register_in};

use mrc_compiler::ast::Segment;
use mrc_compiler::encoder::OperandSize;
use mrc_compiler::operations::Operation;
use x86::{Instruction, Operand};
use x86_forms::{Place, Restriction, Slot};

// The bytes of address or displacement that a place takes, with second byte x.
pub fn address_length(place: Place, x: u8) -> u8
    ensures { result ≡ address_length place x }
{
    match place {
        Place::ByModRm => x86::displacement_length(x / 64, x % 8),
        Place::ByAddress => 2,
        Place::Nowhere | Place::ByBxAl => 0,
    }
}

// Does the second byte x name memory there?
pub fn in_memory(place: Place, x: u8) -> bool
    ensures { result ≡ in_memory place x }
{
    match place {
        Place::Nowhere => false,
        Place::ByModRm => x / 64 < 3,
        Place::ByAddress | Place::ByBxAl => true,
    }
}

// Does some second byte?
pub fn may_name_memory(place: Place) -> bool
    ensures { result ≡ somewhere place }
{
    !matches!(place, Place::Nowhere)
}

// Does a slot have the second byte x?
pub fn allows_second(restriction: Restriction, x: u8) -> bool
    ensures { result ≡ allows_second restriction x }
{
    match restriction {
        Restriction::Any | Restriction::OpcodeNotCs => true,
        Restriction::MemoryOnly => x / 64 < 3,
        Restriction::To3 => x / 8 % 8 < 4,
        Restriction::To3NotCs => x / 8 % 8 < 4 && x / 8 % 8 != 1,
    }
}

// The byte at a place, 0 past the end.
pub fn byte_at(t: &[u8], i: usize) -> u8
    ensures { result ≡ get_or t.now i 0 }
{
    if i < t.len() { t[i] } else { 0 }
}

// The word at a place.
pub fn word_at(t: &[u8], i: usize) -> u16
    requires { i ≤ 2 }
    ensures { result ≡ word_at i t.now }
{
    u16::from_le_bytes([byte_at(t, i), byte_at(t, i + 1)])
}

// A byte sign-extended to 16 bits.
pub fn sign_extended(b: u8) -> u16
    ensures { result ≡ sign_extended b }
{
    if b < 128 {
        b as u16
    } else {
        (b as u16) + 65280
    }
}

// A displacement of n bytes.
pub fn displacement_at(n: u8, t: &[u8]) -> u16
    ensures { result ≡ displacement_at n t.now }
{
    match n {
        0 => 0,
        1 => sign_extended(byte_at(t, 0)),
        _ => word_at(t, 0),
    }
}

// SS for an address with BP, else DS.
fn default_segment(mode: u8, rm: u8) -> Segment
    ensures { result ≡ default_segment mode rm }
{
    match rm {
        2 | 3 => Segment::SS,
        6 if 0 < mode => Segment::SS,
        _ => Segment::DS,
    }
}

// The segment in effect: the prefix's, or the default where there is none (0).
fn in_effect(prefix: u8, default: Segment) -> Segment
    ensures { result ≡ in_effect prefix default }
{
    match prefix {
        0 => default,
        0x26 => Segment::ES,
        0x2E => Segment::CS,
        0x36 => Segment::SS,
        _ => Segment::DS,
    }
}

// The base that mode and r/m name; 8 is an address without one.
fn base_of(mode: u8, rm: u8) -> u8
    ensures { result ≡ base mode rm }
{
    if mode == 0 && rm == 6 { 8 } else { rm }
}

// Memory by ModRM byte x, whose displacement stands at the front of t.
fn memory_at(prefix: u8, x: u8, t: &[u8]) -> Operand
    ensures { result ≡ memory_at prefix x t.now }
{
    let mode = x / 64;
    let rm = x % 8;
    let n = x86::displacement_length(mode, rm);
    Operand::Memory(
        base_of(mode, rm),
        displacement_at(n, t),
        in_effect(prefix, default_segment(mode, rm)),
    )
}

// The operand in the r/m field: mode 3 is a register.
fn rm_at(prefix: u8, x: u8, t: &[u8]) -> Operand
    ensures { result ≡ rm_at prefix x t.now }
{
    if x / 64 < 3 {
        memory_at(prefix, x, t)
    } else {
        Operand::Register(x % 8)
    }
}

// A near target: the offset past the instruction and the distance, modulo 65,536.
fn near(next: u32, distance: u16) -> Operand
    ensures { result ≡ Near ((next + distance) % 65536) }
{
    Operand::Near(((next % 65536) as u16).wrapping_add(distance))
}

// The operand in a slot: prefix (0: none), first byte c, second byte x, the offset past the instruction, the bytes t behind opcode and
// second byte, the bytes u behind the displacement.
pub fn operand_at(slot: Slot, prefix: u8, c: u8, x: u8, next: u32, t: &[u8], u: &[u8]) -> Operand
    ensures { result ≡ at slot prefix c x next t.now u.now }
{
    match slot {
        Slot::Rm(_) | Slot::RmNear | Slot::Mem | Slot::MemFar => rm_at(prefix, x, t),
        Slot::Reg(_) => Operand::Register(x / 8 % 8),
        Slot::Sreg | Slot::SregNotCs => Operand::SegmentRegister(x / 8 % 8),
        Slot::Acc(_) => Operand::Register(0),
        Slot::Low3(_) => Operand::Register(c % 8),
        Slot::Bits34 | Slot::Bits34NotCs => Operand::SegmentRegister(c / 8),
        Slot::Cl => Operand::Register(1),
        Slot::Dx => Operand::Register(2),
        Slot::One => Operand::One,
        Slot::Moffs(_) => Operand::Memory(8, word_at(t, 0), in_effect(prefix, Segment::DS)),
        Slot::Xlat => Operand::Memory(7, 0, in_effect(prefix, Segment::DS)),
        Slot::Ib => Operand::Immediate(byte_at(u, 0) as u16),
        Slot::Iw => Operand::Immediate(word_at(u, 0)),
        Slot::IbSx => Operand::Immediate(sign_extended(byte_at(u, 0))),
        Slot::Cb => near(next, sign_extended(byte_at(u, 0))),
        Slot::Cw => near(next, word_at(u, 0)),
        Slot::Ptr => Operand::Far(word_at(u, 0), word_at(u, 2)),
        Slot::Nil => Operand::None,
    }
}

// A register's number, where an operand is a register.
fn register_in(oper: Operand) -> Option<u8>
    ensures { result ≡ register_in oper }
{
    match oper {
        Operand::Register(n) => Some(n),
        _ => None,
    }
}

// Operation, width and operands as they stand, without a repeat.
fn instruction(
    operation: Operation,
    width: OperandSize,
    first: Operand,
    second: Operand,
) -> Instruction
    ensures { result ≡ instruction operation width first second }
{
    Instruction {
        repeat: 0,
        operation,
        width,
        first,
        second,
    }
}

// Are two registers AX and AX?
fn is_ax_ax(width: OperandSize, m: u8, n: u8) -> bool
    ensures { result ≡ by_size width false false (both (eqb m 0) (eqb n 0)) }
{
    matches!(width, OperandSize::Word) && m == 0 && n == 0
}

// XCHG of two registers: the lower stands first; AX,AX is NOP.
fn exchange_registers(operation: Operation, width: OperandSize, m: u8, n: u8) -> Instruction
    requires { same_operation operation XCHG ≡ true }
    ensures { result ≡ canonical operation width (Register m) (Register n) }
{
    if is_ax_ax(width, m, n) {
        return instruction(
            Operation::NOP,
            OperandSize::Unspecified,
            Operand::None,
            Operand::None,
        );
    }
    if n < m {
        return instruction(operation, width, Operand::Register(n), Operand::Register(m));
    }
    instruction(operation, width, Operand::Register(m), Operand::Register(n))
}

// XCHG, which has no first and second: a register stands before memory.
pub fn exchange(operation: Operation, width: OperandSize, a: Operand, b: Operand) -> Instruction
    requires { same_operation operation XCHG ≡ true }
    ensures { result ≡ canonical operation width a b }
{
    match (register_in(a), register_in(b)) {
        (Some(m), Some(n)) => exchange_registers(operation, width, m, n),
        (Some(_), None) => instruction(operation, width, a, b),
        (None, _) => instruction(operation, width, b, a),
    }
}

// TEST, in which a register and memory have no first and second: the register stands first. Two registers keep their order.
pub fn register_first(
    operation: Operation,
    width: OperandSize,
    a: Operand,
    b: Operand,
) -> Instruction
    requires { same_operation operation TEST ≡ true }
    ensures { result ≡ canonical operation width a b }
{
    match (register_in(a), register_in(b)) {
        (Some(_), _) => instruction(operation, width, a, b),
        (None, Some(_)) => instruction(operation, width, b, a),
        (None, None) => instruction(operation, width, a, b),
    }
}
