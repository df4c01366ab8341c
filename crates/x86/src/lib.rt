// An instruction as it counts for 'same instruction' (REFERENCE 6), and what a reading gives.
#![tactic(auto)]

ghost use Rattle.std.specs.Prelude.{◌≡◌, ◌<◌};
ghost use Rattle.x86.specs.Reading.{refusal_number, displacement_length, is_repeat};

use mrc_compiler::ast::Segment;
use mrc_compiler::encoder::OperandSize;
use mrc_compiler::operations::Operation;

pub mod operands;

// A used operand. None stands where the form has none: an Option would be no plainer, since each match takes all kinds at once.
#[derive(Clone, Copy, Debug, PartialEq, Eq)]
pub enum Operand {
    None,

    // A register's number in ModRM. Its size is the instruction's width; a port in DX is register 2, a shift's count in CL register 1.
    Register(u8),

    // A segment register's number.
    SegmentRegister(u8),

    // Base (the r/m number of the address, or 8 for an address without base), displacement modulo 65,536, segment in effect.
    Memory(u8, u16, Segment),

    // Modulo 256 or 65,536.
    Immediate(u16),

    // A near target, modulo 65,536.
    Near(u16),

    // A far target: offset and segment.
    Far(u16, u16),

    // A shift's count of 1.
    One,
}

// Two records or byte strings are the same instruction where these are equal.
#[derive(Clone, Copy, Debug, PartialEq, Eq)]
pub struct Instruction {
    // The byte of REPNE or REP, F2 or F3, before a string operation; 0 where there is none.
    pub repeat: u8,
    pub operation: Operation,

    // The form's width; Unspecified where the form has none.
    pub width: OperandSize,
    pub first: Operand,
    pub second: Operand,
}

// Why no instruction stands at the front of some bytes.
#[derive(Clone, Copy, Debug, PartialEq, Eq)]
pub enum ReadError {
    // Refusal 10: no instruction begins so.
    NotAnInstruction,

    // Refusal 11: an instruction that is not complete yet.
    NotComplete,
}

impl ReadError {
    // Document 01's number of the refusal.
    pub fn number(self) -> u8
        ensures { result ≡ refusal_number self }
    {
        match self {
            ReadError::NotAnInstruction => 10,
            ReadError::NotComplete => 11,
        }
    }
}

// The bytes of displacement that a ModRM byte's mode and r/m ask for.
pub fn displacement_length(mode: u8, rm: u8) -> u8
    requires { (mode < 4) × (rm < 8) }
    ensures { result ≡ displacement_length mode rm }
{
    match mode {
        0 => if rm == 6 { 2 } else { 0 },
        1 => 1,
        2 => 2,
        _ => 0,
    }
}

// The bytes of REPNE and REP.
#[tactic(auto, unfolding(crate::specs::Reading::is_repeat))]
pub fn is_repeat(b: u8) -> bool
    ensures { result ≡ is_repeat b }
{
    matches!(b, 0xF2 | 0xF3)
}
