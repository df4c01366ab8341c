// The words of the table of forms (x86, specs/Forms, which has them in the book's notation), and what is known of a slot.
#![tactic(auto)]

ghost use Rattle.std.specs.Prelude.{◌≡◌};
ghost use Rattle.x86_forms.specs.Slots.{about};

use mrc_compiler::encoder::OperandSize;

// Where an operand stands. Nil is an entry of the column like the others: an Option round the slot would be no plainer, since each match takes all entries at once.
#[derive(Clone, Copy, Debug, PartialEq, Eq)]
pub enum Slot {
    // The r/m field of ModRM, a register or memory.
    Rm(OperandSize),

    // The same, a word that holds a near target.
    RmNear,

    // The r/m field, memory only.
    Mem,

    // The same, memory that holds a far target (m16:16).
    MemFar,

    // The reg field of ModRM.
    Reg(OperandSize),

    // The reg field, a segment register.
    Sreg,

    // The same, not CS.
    SregNotCs,

    // AL or AX.
    Acc(OperandSize),

    // A register in the opcode's low three bits.
    Low3(OperandSize),

    // A segment register in the opcode's bits 3 and 4.
    Bits34,

    // The same, not CS.
    Bits34NotCs,
    Cl,
    Dx,

    // The constant 1.
    One,

    // Memory at the address word behind the opcode.
    Moffs(OperandSize),

    // Memory at [BX + AL].
    Xlat,

    // An immediate byte.
    Ib,

    // An immediate word.
    Iw,

    // An immediate byte, sign-extended to a word.
    IbSx,

    // A near target, a distance byte.
    Cb,

    // A near target, a distance word.
    Cw,

    // A far target, offset word and segment word (ptr16:16).
    Ptr,

    // No operand.
    Nil,
}

// What the opcode column has beside the opcode. None is an entry of the column like the others: an Option would be no plainer.
#[derive(Clone, Copy, Debug, PartialEq, Eq)]
pub enum Extension {
    None,

    // 40+rw: the register's number is added to the opcode.
    PlusRegister,

    // 06 + 8 × segment.
    PlusSegment,

    // A ModRM byte whose reg field is an operand.
    ModRm,

    // A ModRM byte whose reg field is this digit.
    Digit(u8),

    // A second byte, 0A.
    Second0A,
}

// A form as the manual names it: the opcode as printed, and its extension.
#[derive(Clone, Copy, Debug, PartialEq, Eq)]
pub struct FormName {
    pub opcode: u8,
    pub extension: Extension,
}

// How a slot names memory. Nowhere is one of the four ways, each with its length: an Option would be no plainer.
#[derive(Clone, Copy, Debug, PartialEq, Eq)]
pub enum Place {
    Nowhere,
    ByModRm,
    ByAddress,
    ByBxAl,
}

// Which bytes a slot has.
#[derive(Clone, Copy, Debug, PartialEq, Eq)]
pub enum Restriction {
    Any,

    // Mode 0 to 2.
    MemoryOnly,

    // The reg field is a segment register's number.
    To3,
    To3NotCs,

    // Bits 3 and 4 of the opcode are not 1.
    OpcodeNotCs,
}

// What is known of a slot before the bytes behind the opcode are read.
#[derive(Clone, Copy, Debug, PartialEq, Eq)]
pub struct About {
    // The width that it states.
    pub width: OperandSize,
    pub place: Place,

    // The immediate bytes that it takes.
    pub takes: u8,
    pub restriction: Restriction,
}

// An extension, whatever its digit. Unused is the class of row 0: an Option would be no plainer, since each match takes all classes at once.
#[derive(Clone, Copy, Debug, PartialEq, Eq)]
pub enum Class {
    Unused,
    Plain,
    PlusRegister,
    PlusSegment,
    ModRm,
    Digit,
    Second0A,
}

// What the forms of a row have in common.
#[derive(Clone, Copy, Debug, PartialEq, Eq)]
pub struct Shape {
    pub class: Class,
    pub first: Slot,
    pub second: Slot,
}

impl Slot {
    // What is known of the slot.
    pub fn about(self) -> About
        ensures { result ≡ about self }
    {
        match self {
            Slot::Rm(w) => About {
                width: w,
                place: Place::ByModRm,
                takes: 0,
                restriction: Restriction::Any,
            },
            Slot::RmNear => About {
                width: OperandSize::Word,
                place: Place::ByModRm,
                takes: 0,
                restriction: Restriction::Any,
            },
            Slot::Mem => About {
                width: OperandSize::Unspecified,
                place: Place::ByModRm,
                takes: 0,
                restriction: Restriction::MemoryOnly,
            },
            Slot::MemFar => About {
                width: OperandSize::Unspecified,
                place: Place::ByModRm,
                takes: 0,
                restriction: Restriction::MemoryOnly,
            },
            Slot::Reg(w) => About {
                width: w,
                place: Place::Nowhere,
                takes: 0,
                restriction: Restriction::Any,
            },
            Slot::Sreg => About {
                width: OperandSize::Word,
                place: Place::Nowhere,
                takes: 0,
                restriction: Restriction::To3,
            },
            Slot::SregNotCs => About {
                width: OperandSize::Word,
                place: Place::Nowhere,
                takes: 0,
                restriction: Restriction::To3NotCs,
            },
            Slot::Acc(w) => About {
                width: w,
                place: Place::Nowhere,
                takes: 0,
                restriction: Restriction::Any,
            },
            Slot::Low3(w) => About {
                width: w,
                place: Place::Nowhere,
                takes: 0,
                restriction: Restriction::Any,
            },
            Slot::Bits34 => About {
                width: OperandSize::Word,
                place: Place::Nowhere,
                takes: 0,
                restriction: Restriction::Any,
            },
            Slot::Bits34NotCs => About {
                width: OperandSize::Word,
                place: Place::Nowhere,
                takes: 0,
                restriction: Restriction::OpcodeNotCs,
            },
            Slot::Cl => About {
                width: OperandSize::Unspecified,
                place: Place::Nowhere,
                takes: 0,
                restriction: Restriction::Any,
            },
            Slot::Dx => About {
                width: OperandSize::Unspecified,
                place: Place::Nowhere,
                takes: 0,
                restriction: Restriction::Any,
            },
            Slot::One => About {
                width: OperandSize::Unspecified,
                place: Place::Nowhere,
                takes: 0,
                restriction: Restriction::Any,
            },
            Slot::Moffs(w) => About {
                width: w,
                place: Place::ByAddress,
                takes: 0,
                restriction: Restriction::Any,
            },
            Slot::Xlat => About {
                width: OperandSize::Byte,
                place: Place::ByBxAl,
                takes: 0,
                restriction: Restriction::Any,
            },
            Slot::Ib => About {
                width: OperandSize::Unspecified,
                place: Place::Nowhere,
                takes: 1,
                restriction: Restriction::Any,
            },
            Slot::Iw => About {
                width: OperandSize::Unspecified,
                place: Place::Nowhere,
                takes: 2,
                restriction: Restriction::Any,
            },
            Slot::IbSx => About {
                width: OperandSize::Unspecified,
                place: Place::Nowhere,
                takes: 1,
                restriction: Restriction::Any,
            },
            Slot::Cb => About {
                width: OperandSize::Unspecified,
                place: Place::Nowhere,
                takes: 1,
                restriction: Restriction::Any,
            },
            Slot::Cw => About {
                width: OperandSize::Unspecified,
                place: Place::Nowhere,
                takes: 2,
                restriction: Restriction::Any,
            },
            Slot::Ptr => About {
                width: OperandSize::Unspecified,
                place: Place::Nowhere,
                takes: 4,
                restriction: Restriction::Any,
            },
            Slot::Nil => About {
                width: OperandSize::Unspecified,
                place: Place::Nowhere,
                takes: 0,
                restriction: Restriction::Any,
            },
        }
    }
}
