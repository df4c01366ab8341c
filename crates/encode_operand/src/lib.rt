// Question 1: is an operand well formed, and the repeat?
#![tactic(auto)]

ghost use Rattle.std.specs.Prelude.{◌≡◌, eqb, ◌<◌};
ghost use Rattle.x86.specs.Reading.{displacement_length};
ghost use Rattle.mrc_compiler.specs.Operations.{is_string};
ghost use Rattle.encode_spec.specs.WellFormed.{is_prefix, bytes_of, displacement_in, immediate_formed, register_formed, segment_formed, memory_formed, well_formed, repeat_formed};

use mrc_compiler::encoder::{OperandData, OperandKind, OperandSize};
use mrc_compiler::operations::Operation;

fn bytes_of(size: OperandSize) -> u8
    ensures { result ≡ bytes_of size }
{
    match size {
        OperandSize::Unspecified => 0,
        OperandSize::Byte => 1,
        OperandSize::Word => 2,
    }
}

// Is the displacement's size the one that mode and r/m ask for?
fn displacement_fits(size: OperandSize, mode: u8, rm: u8) -> bool
    requires { (mode < 4) × (rm < 8) }
    ensures { result ≡ eqb (bytes_of size) (displacement_length mode rm) }
{
    bytes_of(size) == x86::displacement_length(mode, rm)
}

// Is the displacement in the range of its size?
fn displacement_in(oper: OperandData) -> bool
    ensures { result ≡ displacement_in oper }
{
    match oper.displacement_size {
        OperandSize::Unspecified => base_values::value_is_within(oper.displacement, 0, 0),
        OperandSize::Byte => base_values::value_is_within(oper.displacement, -128, 127),
        OperandSize::Word => base_values::value_is_within(oper.displacement, -32768, 65535),
    }
}

// No prefix, or one of the four.
#[tactic(auto, unfolding(x86::specs::Reading::prefix))]
fn is_prefix(p: u8) -> bool
    ensures { result ≡ is_prefix p }
{
    p == 0 || p == 0x26 || p == 0x2E || p == 0x36 || p == 0x3E
}

fn immediate_is_well_formed(oper: OperandData) -> bool
    ensures { result ≡ immediate_formed oper }
{
    oper.segment_prefix == 0
        && oper.mode == 0
        && oper.rm == 0
        && matches!(oper.displacement_size, OperandSize::Unspecified)
}

fn register_is_well_formed(oper: OperandData) -> bool
    ensures { result ≡ register_formed oper }
{
    oper.segment_prefix == 0
        && oper.mode == 3
        && oper.rm < 8
        && displacement_fits(oper.displacement_size, oper.mode, oper.rm)
        && displacement_in(oper)
}

fn segment_is_well_formed(oper: OperandData) -> bool
    ensures { result ≡ segment_formed oper }
{
    oper.segment_prefix == 0
        && oper.mode == 3
        && oper.rm < 4
        && displacement_fits(oper.displacement_size, oper.mode, oper.rm)
        && displacement_in(oper)
        && matches!(oper.size, OperandSize::Word)
}

fn memory_is_well_formed(oper: OperandData) -> bool
    ensures { result ≡ memory_formed oper }
{
    is_prefix(oper.segment_prefix)
        && oper.mode < 3
        && oper.rm < 8
        && displacement_fits(oper.displacement_size, oper.mode, oper.rm)
        && displacement_in(oper)
}

pub fn is_well_formed(oper: OperandData) -> bool
    ensures { result ≡ well_formed oper }
{
    match oper.kind {
        OperandKind::Imm => immediate_is_well_formed(oper),
        OperandKind::Reg => register_is_well_formed(oper),
        OperandKind::Seg => segment_is_well_formed(oper),
        OperandKind::Mem => memory_is_well_formed(oper),
    }
}

// MOVSB to STOSW, which stand one behind the other among the operations.
fn is_string(operation: Operation) -> bool
    ensures { result ≡ is_string operation }
{
    let n = operation.number();
    48 <= n && n <= 57
}

// No repeat, or one before a string operation.
pub fn is_repeat_well_formed(repeat: u8, operation: Operation) -> bool
    ensures { result ≡ repeat_formed repeat operation }
{
    repeat == 0 || x86::is_repeat(repeat) && is_string(operation)
}
