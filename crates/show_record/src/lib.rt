// A record of a show file becomes an instruction (REFERENCE 8).
#![tactic(auto)]

ghost use Rattle.std.specs.Prelude.{◌≡◌, ◌+◌, ◌≤◌, true, eqb, length, get_or, slice_get};
ghost use Rattle.mrc_compiler.specs.declared.operations.Operation.TheVariants as Op;
ghost use Rattle.mrc_compiler.specs.Choose.{pick};
ghost use Rattle.mrc_compiler.specs.Operations.{operations};
ghost use Rattle.show_record.specs.Record.{kinds, sizes, jump_kinds, operand_length, repeat_in, is_record, byte_at, u32_at, i32_at, span_at, operand_at, instruction_at, operand_known, codes_known};

use mrc_compiler::ast::Span;
use mrc_compiler::encoder::{InstructionData, JumpKind, OperandData, OperandKind, OperandSize};
use mrc_compiler::operations::Operation;

// The places of an operand's fields, from its first byte.
pub const KIND: usize = 0;

pub const SIZE: usize = 1;

pub const PREFIX: usize = 2;

pub const DISPLACEMENT_SIZE: usize = 3;

pub const JUMP_KIND: usize = 4;

pub const MODE: usize = 5;

pub const RM: usize = 6;

pub const IMM: usize = 7;

pub const DISPLACEMENT: usize = 11;

const OPERAND_SPAN: usize = 15;

pub const OPERAND_LENGTH: usize = 23;

// The places of a record's fields.
pub const OPERATION: usize = 0;

pub const COUNT: usize = 1;

const SPAN: usize = 2;

pub const FIRST: usize = 10;

pub const SECOND: usize = FIRST + OPERAND_LENGTH;

pub const RECORD_LENGTH: usize = SECOND + OPERAND_LENGTH;

// A record with a repeat has it behind the count, and the other fields a byte further.
pub const REPEAT: usize = 2;

pub const LONG_RECORD_LENGTH: usize = RECORD_LENGTH + 1;

// The byte at a place, 0 past the end.
pub fn byte_at(bytes: &[u8], at: usize) -> u8
    ensures { result ≡ byte_at bytes.now at }
{
    bytes.get(at).copied().unwrap_or(0)
}

// The u32 at a place, low byte first.
pub fn u32_at(bytes: &[u8], at: usize) -> u32
    requires { at + 4 ≤ length bytes.now }
    ensures { result ≡ u32_at bytes.now at }
{
    u32::from_le_bytes([bytes[at], bytes[at + 1], bytes[at + 2], bytes[at + 3]])
}

// The i32 at a place.
fn i32_at(bytes: &[u8], at: usize) -> i32
    requires { at + 4 ≤ length bytes.now }
    ensures { result ≡ i32_at bytes.now at }
{
    u32_at(bytes, at).cast_signed()
}

// The span at a place: its start, then its end.
fn span_at(bytes: &[u8], at: usize) -> Span
    requires { at + 8 ≤ length bytes.now }
    ensures { result ≡ span_at bytes.now at }
{
    Span {
        start: u32_at(bytes, at),
        end: u32_at(bytes, at + 4),
    }
}

// The operation of a code. An unknown code counts as the code 0.
fn operation_of(code: u8) -> Operation
    ensures { result ≡ get_or operations code Op.MOV }
{
    match Operation::numbered(code) {
        Some(operation) => operation,
        None => Operation::MOV,
    }
}

// The kind of a code, where it is known.
fn kind_of(code: u8) -> Option<OperandKind>
    ensures { result ≡ slice_get kinds code }
{
    match code {
        0 => Some(OperandKind::Imm),
        1 => Some(OperandKind::Reg),
        2 => Some(OperandKind::Seg),
        3 => Some(OperandKind::Mem),
        _ => None,
    }
}

// The size of a code, where it is known.
fn size_of(code: u8) -> Option<OperandSize>
    ensures { result ≡ slice_get sizes code }
{
    match code {
        0 => Some(OperandSize::Unspecified),
        1 => Some(OperandSize::Byte),
        2 => Some(OperandSize::Word),
        _ => None,
    }
}

// The jump kind of a code, where it is known.
fn jump_kind_of(code: u8) -> Option<Option<JumpKind>>
    ensures { result ≡ slice_get jump_kinds code }
{
    match code {
        0 => Some(None),
        1 => Some(Some(JumpKind::Far)),
        2 => Some(Some(JumpKind::Near)),
        3 => Some(Some(JumpKind::Short)),
        _ => None,
    }
}

// The operand whose first byte stands at a place. An unknown code counts as the code 0.
#[tactic(auto, unfolding(crate::specs::Record::operand_at))]
fn operand_at(bytes: &[u8], at: usize) -> OperandData
    requires { at + operand_length ≤ length bytes.now }
    ensures { result ≡ operand_at bytes.now at }
{
    OperandData {
        span: span_at(bytes, at + OPERAND_SPAN),
        size: size_of(bytes[at + SIZE]).unwrap_or(OperandSize::Unspecified),
        kind: kind_of(bytes[at + KIND]).unwrap_or(OperandKind::Imm),
        segment_prefix: bytes[at + PREFIX],
        imm: i32_at(bytes, at + IMM),
        displacement: i32_at(bytes, at + DISPLACEMENT),
        displacement_size: size_of(bytes[at + DISPLACEMENT_SIZE]).unwrap_or(
            OperandSize::Unspecified,
        ),
        jmp_kind: jump_kind_of(bytes[at + JUMP_KIND]).unwrap_or(None),
        mode: bytes[at + MODE],
        rm: bytes[at + RM],
    }
}

// How many bytes of repeat a record of this length has.
pub fn repeat_in(length: usize) -> usize
    ensures value { result ≡ repeat_in length }
    ensures small { result ≤ 1 }
{
    if length == LONG_RECORD_LENGTH { 1 } else { 0 }
}

// Is this a record's length?
pub fn is_record(length: usize) -> bool
    ensures { result ≡ is_record length }
{
    length == RECORD_LENGTH + repeat_in(length)
}

// The repeat of a record that has so many bytes of it, one or none. A branch would cost every record more than the product.
fn repeat_of(byte: u8, d: usize) -> u8
    requires { d ≤ 1 }
    ensures { result ≡ pick (eqb d 0) 0 byte }
{
    byte * d as u8
}

// The instruction of a record whose codes are known; an unknown code counts as the code 0. No `Option`: who reads a record has asked `codes_known` of it, of a show's records all before the first.
#[tactic(auto, unfolding(crate::specs::Record::instruction_at))]
pub fn instruction_at(bytes: &[u8]) -> InstructionData
    requires { is_record (length bytes.now) ≡ true }
    ensures { result ≡ instruction_at bytes.now }
{
    let d = repeat_in(bytes.len());
    InstructionData {
        operation: operation_of(bytes[OPERATION]),
        num_opers: bytes[COUNT],
        repeat: repeat_of(bytes[REPEAT], d),
        opers: [operand_at(bytes, FIRST + d), operand_at(bytes, SECOND + d)],
        opers_span: span_at(bytes, SPAN + d),
    }
}

// Are the codes of the operand at a place known?
#[tactic(auto, unfolding(crate::specs::Record::operand_known))]
fn operand_known(bytes: &[u8], at: usize) -> bool
    requires { at + operand_length ≤ length bytes.now }
    ensures { result ≡ operand_known bytes.now at }
{
    kind_of(bytes[at + KIND]).is_some()
        && size_of(bytes[at + SIZE]).is_some()
        && size_of(bytes[at + DISPLACEMENT_SIZE]).is_some()
        && jump_kind_of(bytes[at + JUMP_KIND]).is_some()
}

// Are all codes of a record known, those of an operand that is not used too? No: refusal 15.
#[tactic(auto, unfolding(crate::specs::Record::codes_known, mrc_compiler::specs::Operations::operations))]
pub fn codes_known(bytes: &[u8]) -> bool
    requires { is_record (length bytes.now) ≡ true }
    ensures { result ≡ codes_known bytes.now }
{
    let d = repeat_in(bytes.len());
    bytes[OPERATION] < 99 && operand_known(bytes, FIRST + d) && operand_known(bytes, SECOND + d)
}
