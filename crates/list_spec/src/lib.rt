// The listing of demand 3 as definitions and theorems, and the values that its code hands on.
#![tactic(auto)]

ghost use Rattle.std.specs.Prelude.{◌≡◌, ◌/◌, ◌%◌, leb};
ghost use Rattle.list_spec.specs.Encodings.{encoding_number};

use encode_groups::Group;
use mrc_compiler::encoder::OperandSize;
use x86::operands::OperandType;

// The byte behind an opcode.
#[derive(Clone, Copy, Debug, PartialEq, Eq)]
pub enum Second {
    // A ModRM byte, with the displacement that it asks for.
    ModRm(u8),

    // A byte that belongs to the opcode: 0A.
    Fixed(u8),
}

// What an instruction ends with.
#[derive(Clone, Copy, Debug, PartialEq, Eq)]
pub enum Tail {
    // An immediate byte, an immediate word.
    Byte,
    Word,

    // A distance byte, a distance word.
    Near8,
    Near16,

    // A far target: offset word and segment word.
    Far,

    // The address word of A0 to A3.
    Address,
}

// How a string of an instruction goes on behind its prefix; the values in it are the instruction's.
#[derive(Clone, Copy, Debug, PartialEq, Eq)]
pub struct Start {
    pub opcode: u8,
    pub second: Option<Second>,
    pub tail: Option<Tail>,
}

// Which of an instruction's two encodings.
#[derive(Clone, Copy, Debug, PartialEq, Eq)]
pub enum Encoding {
    Primary,
    Alternate,
}

// One of the twelve strings that come into question for an instruction: by its encoding and mode, without or with the prefix of its segment.
#[derive(Clone, Copy, Debug, PartialEq, Eq)]
pub struct Candidate {
    pub prefixed: bool,
    pub encoding: Encoding,
    pub mode: u8,
}

impl Candidate {
    // Candidate i, below 12: three modes of each encoding, then the same with the prefix.
    pub fn numbered(i: u8) -> Candidate
        ensures prefixed { result.prefixed ≡ leb 6 i }
        ensures encoding { encoding_number result.encoding ≡ i / 3 % 2 }
        ensures mode { result.mode ≡ i % 3 }
    {
        let encoding = if i / 3 % 2 == 0 {
            Encoding::Primary
        } else {
            Encoding::Alternate
        };
        Candidate {
            prefixed: 6 <= i,
            encoding,
            mode: i % 3,
        }
    }
}

// What of an instruction its strings are made of.
#[derive(Clone, Copy, Debug, PartialEq, Eq)]
pub struct Parts {
    pub repeat: u8,

    // Its operation's group of the code list, and the number that the group's forms start from.
    pub group: Group,
    pub base: u8,
    pub width: OperandSize,
    pub first: OperandType,
    pub second: OperandType,

    // Of the segment that memory is in; 0 without memory.
    pub prefix: u8,
    pub displacement: u16,

    // Is the displacement 0? Is it -128 to 127?
    pub zero: bool,
    pub short: bool,
    pub value: u16,
    pub segment: u16,
}
