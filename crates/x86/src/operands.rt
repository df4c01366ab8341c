// An operand of an instruction as numbers: its kind, its register or base, and its values; 0 for what it does not have.
ghost use Rattle.std.specs.Prelude.{◌≡◌};
ghost use Rattle.x86.specs.Operands.{type_of, displacement_in, value_in, far_segment_in, size_number};

use crate::Operand;
use mrc_compiler::encoder::OperandSize;

// ---- The kinds of operand.
pub const NO_OPERAND: u8 = 0;

pub const REGISTER: u8 = 1;

pub const SEGMENT_REGISTER: u8 = 2;

pub const MEMORY: u8 = 3;

pub const IMMEDIATE: u8 = 4;

pub const NEAR: u8 = 5;

pub const FAR: u8 = 6;

// The constant 1 of a shift.
pub const ONE: u8 = 7;

// An operand without its values: its kind, and its register's number or base. The kind stays a number: is_possible and candidate_run
// answer for every number, and an enum would exclude some.
#[derive(Clone, Copy, Debug, PartialEq, Eq)]
pub struct OperandType {
    pub kind: u8,
    pub number: u8,
}

// An operand without its values.
pub fn type_of(oper: Operand) -> OperandType
    ensures { result ≡ type_of oper }
{
    match oper {
        Operand::None => OperandType {
            kind: NO_OPERAND,
            number: 0,
        },
        Operand::Register(n) => OperandType {
            kind: REGISTER,
            number: n,
        },
        Operand::SegmentRegister(n) => OperandType {
            kind: SEGMENT_REGISTER,
            number: n,
        },
        Operand::Memory(b, _, _) => OperandType {
            kind: MEMORY,
            number: b,
        },
        Operand::Immediate(_) => OperandType {
            kind: IMMEDIATE,
            number: 0,
        },
        Operand::Near(_) => OperandType {
            kind: NEAR,
            number: 0,
        },
        Operand::Far(_, _) => OperandType {
            kind: FAR,
            number: 0,
        },
        Operand::One => OperandType {
            kind: ONE,
            number: 0,
        },
    }
}

pub fn displacement_in(oper: Operand) -> u16
    ensures { result ≡ displacement_in oper }
{
    match oper {
        Operand::Memory(_, displacement, _) => displacement,
        _ => 0,
    }
}

// An immediate, or a target's offset.
pub fn value_in(oper: Operand) -> u16
    ensures { result ≡ value_in oper }
{
    match oper {
        Operand::Immediate(value) => value,
        Operand::Near(target) => target,
        Operand::Far(target, _) => target,
        _ => 0,
    }
}

// A far target's segment.
pub fn far_segment_in(oper: Operand) -> u16
    ensures { result ≡ far_segment_in oper }
{
    match oper {
        Operand::Far(_, segment) => segment,
        _ => 0,
    }
}

// The number of a width.
pub fn size_number(size: OperandSize) -> u8
    ensures { result ≡ size_number size }
{
    size as u8
}
