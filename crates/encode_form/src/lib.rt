// The form by which a record is written, or the question that refused it (REFERENCE 9): what `fsqform` prints.
#![tactic(auto)]

ghost use Rattle.std.specs.Prelude.{◌≡◌, ◌≤◌};
ghost use Rattle.encode_form.specs.Ground.{ground};
ghost use Rattle.encode_form.specs.ByBytes.{has_digit, digit_at, data_limits, limits_by, operands_in, opcode_place, written_in, question_by};

use encode_groups::Group;
use encode_run::ByteRun;
use mrc_compiler::encoder::{EncodeError, InstructionData, OperandSize};

// Question 6's limits on an immediate.
#[derive(Clone, Copy, Debug, PartialEq, Eq)]
pub struct Limits {
    pub low: i32,
    pub high: i32,
}

// A form as a record has it written: the opcode byte with the register in it, the n of /n where the opcode has one, how many of the record's operands it uses, from the first on, and the limits on its immediate, where there is one.
#[derive(Clone, Copy, Debug, PartialEq, Eq)]
pub struct Written {
    pub opcode: u8,
    pub digit: Option<u8>,
    pub operands: u8,
    pub limits: Option<Limits>,
}

// Why a record is answered as it is: the form of its bytes, or the number of the question that refused it. No `Result`: a question is as good an answer as a form.
#[derive(Clone, Copy, Debug, PartialEq, Eq)]
pub enum Ground {
    Form(Written),
    Question(u8),
}

// Is the reg field of ModRM a part of this opcode?
fn has_digit(opcode: u8) -> bool
    ensures { result ≡ has_digit opcode }
{
    matches!(
        opcode,
        0x80..=0x83 | 0x8F | 0xC6 | 0xC7 | 0xD0..=0xD3 | 0xF6 | 0xF7 | 0xFE..
    )
}

fn digit_of(opcode: u8, modrm: u8) -> Option<u8>
    ensures { result ≡ digit_at opcode modrm }
{
    if has_digit(opcode) {
        Some(modrm / 8 % 8)
    } else {
        None
    }
}

const DATA_BYTE: Limits = Limits {
    low: -128,
    high: 255,
};

const DATA_WORD: Limits = Limits {
    low: -32768,
    high: 65535,
};

const SIGN_EXTENDED: Limits = Limits {
    low: -128,
    high: 127,
};

// Of a vector and of a port.
const BYTE: Limits = Limits { low: 0, high: 255 };

// Of a near target, a far one's offset and what RET takes off the stack.
const WORD: Limits = Limits {
    low: 0,
    high: 65535,
};

// The limits of a byte or word of data, by the opcode's low bit.
fn data_limits(opcode: u8) -> Option<Limits>
    ensures { result ≡ data_limits opcode }
{
    if opcode % 2 == 0 {
        Some(DATA_BYTE)
    } else {
        Some(DATA_WORD)
    }
}

// The limits of an opcode's immediate; of F6 and F7 only TEST, whose digit is 0, has one.
fn limits_of(opcode: u8, digit_is_0: bool) -> Option<Limits>
    ensures { result ≡ limits_by opcode digit_is_0 }
{
    match opcode {
        0x00..=0x3F if opcode % 8 / 2 == 2 => data_limits(opcode),
        0x80 | 0x81 | 0xA8 | 0xA9 | 0xC6 | 0xC7 => data_limits(opcode),
        0xF6 | 0xF7 if digit_is_0 => data_limits(opcode),
        0x83 => Some(SIGN_EXTENDED),
        0xB0..=0xB7 => Some(DATA_BYTE),
        0xB8..=0xBF => Some(DATA_WORD),
        0xC2 | 0xE8..=0xEB => Some(WORD),
        0xCD | 0xE4..=0xE7 => Some(BYTE),
        _ => None,
    }
}

// How many operands the forms of a group use; of RET those of a record that counts none, or some.
fn operands_of(group: Group, counts_none: bool) -> u8
    ensures { result ≡ operands_in group counts_none }
{
    match group {
        Group::Arithmetic | Group::Mov | Group::Test | Group::Xchg => 2,
        Group::Lea | Group::LesLds | Group::Shift | Group::In | Group::Out => 2,
        Group::Unary | Group::IncDec | Group::Push | Group::Pop => 1,
        Group::Call | Group::Jmp | Group::Jcc | Group::Loopc | Group::Int | Group::Xlat => 1,
        Group::Ret => if counts_none { 0 } else { 1 },
        Group::NoOperands | Group::Prefixes | Group::Aam | Group::Aad | Group::Unsupported => 0,
    }
}

// Where the opcode stands behind a repeat (0: none), with the first byte.
fn opcode_place(repeat: u8, first: u8) -> usize
    ensures value { result ≡ opcode_place repeat first }
    ensures small { result ≤ 1 }
{
    if repeat == 0 {
        reader::opcode_start(first)
    } else {
        1
    }
}

// The form of a record that is accepted, read off the bytes that are written for it.
pub fn written_in(run: ByteRun, insn: InstructionData) -> Written
    ensures { result ≡ written_in run.bytes insn }
{
    let group = encode_groups::group_of(insn.operation).group;
    let at = opcode_place(insn.repeat, run.bytes[0]);
    let opcode = run.bytes[at];
    let modrm = run.bytes[at + 1];
    Written {
        opcode,
        digit: digit_of(opcode, modrm),
        operands: operands_of(group, insn.num_opers == 0),
        limits: limits_of(opcode, modrm / 8 % 8 == 0),
    }
}

// The question whose refusal this is. 4 is question 5's where the size was stated, which is POP of an immediate.
pub fn question_of(error: EncodeError, insn: InstructionData) -> u8
    ensures { result ≡ question_by error insn }
{
    match error {
        EncodeError::NotWellFormed(_) => 1,
        EncodeError::InvalidRepeat(_) => 1,
        EncodeError::NotSupported(_) => 2,
        EncodeError::OperandSizeNotSpecified(_) => 3,
        EncodeError::InvalidOperandSize(_) => match insn.opers[0].size {
            OperandSize::Unspecified => 3,
            OperandSize::Byte => 3,
            OperandSize::Word => 5,
        },
        EncodeError::OperandSizesDoNotMatch(_) => 4,
        EncodeError::InvalidOperands(_) => 5,
        EncodeError::ImmediateOutOfRange(_, _, _, _) => 6,
        EncodeError::RelativeJumpOutOfRange(_, _, _, _) => 7,
        EncodeError::SliceTooShort(_) => 8,
    }
}

// Why a record at an offset is answered as it is.
pub fn ground_of(insn: InstructionData, offset: u16) -> Ground
    ensures { result ≡ ground insn offset }
{
    match encoder::run_of(insn, offset) {
        Err(e) => Ground::Question(question_of(e, insn)),
        Ok(run) => Ground::Form(written_in(run, insn)),
    }
}
