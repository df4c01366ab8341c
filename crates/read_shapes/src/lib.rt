// The shape of a row of the table: what the opcode column has, and the two slots.
#![tactic(auto)]

ghost use Rattle.std.specs.Prelude.{◌≡◌};
ghost use Rattle.x86.specs.Rows.{shape_numbered};

use mrc_compiler::encoder::OperandSize;
use x86_forms::{Class, Shape, Slot};

// The shape of a row: what the opcode column has, and the two slots.
pub fn shape_of(row: u8) -> Shape
    ensures { result ≡ shape_numbered row }
{
    match row {
        0 => Shape {
            class: Class::Unused,
            first: Slot::Nil,
            second: Slot::Nil,
        },
        1 => Shape {
            class: Class::ModRm,
            first: Slot::Rm(OperandSize::Byte),
            second: Slot::Reg(OperandSize::Byte),
        },
        2 => Shape {
            class: Class::ModRm,
            first: Slot::Rm(OperandSize::Word),
            second: Slot::Reg(OperandSize::Word),
        },
        3 => Shape {
            class: Class::ModRm,
            first: Slot::Reg(OperandSize::Byte),
            second: Slot::Rm(OperandSize::Byte),
        },
        4 => Shape {
            class: Class::ModRm,
            first: Slot::Reg(OperandSize::Word),
            second: Slot::Rm(OperandSize::Word),
        },
        5 => Shape {
            class: Class::Plain,
            first: Slot::Acc(OperandSize::Byte),
            second: Slot::Ib,
        },
        6 => Shape {
            class: Class::Plain,
            first: Slot::Acc(OperandSize::Word),
            second: Slot::Iw,
        },
        7 => Shape {
            class: Class::PlusSegment,
            first: Slot::Bits34,
            second: Slot::Nil,
        },
        8 => Shape {
            class: Class::PlusSegment,
            first: Slot::Bits34NotCs,
            second: Slot::Nil,
        },
        9 => Shape {
            class: Class::Plain,
            first: Slot::Nil,
            second: Slot::Nil,
        },
        10 => Shape {
            class: Class::PlusRegister,
            first: Slot::Low3(OperandSize::Word),
            second: Slot::Nil,
        },
        11 => Shape {
            class: Class::Plain,
            first: Slot::Cb,
            second: Slot::Nil,
        },
        12 => Shape {
            class: Class::Digit,
            first: Slot::Rm(OperandSize::Byte),
            second: Slot::Ib,
        },
        13 => Shape {
            class: Class::Digit,
            first: Slot::Rm(OperandSize::Word),
            second: Slot::Iw,
        },
        14 => Shape {
            class: Class::Digit,
            first: Slot::Rm(OperandSize::Word),
            second: Slot::IbSx,
        },
        15 => Shape {
            class: Class::ModRm,
            first: Slot::Rm(OperandSize::Word),
            second: Slot::Sreg,
        },
        16 => Shape {
            class: Class::ModRm,
            first: Slot::Reg(OperandSize::Word),
            second: Slot::Mem,
        },
        17 => Shape {
            class: Class::ModRm,
            first: Slot::SregNotCs,
            second: Slot::Rm(OperandSize::Word),
        },
        18 => Shape {
            class: Class::PlusRegister,
            first: Slot::Acc(OperandSize::Word),
            second: Slot::Low3(OperandSize::Word),
        },
        19 => Shape {
            class: Class::Plain,
            first: Slot::Acc(OperandSize::Byte),
            second: Slot::Moffs(OperandSize::Byte),
        },
        20 => Shape {
            class: Class::Plain,
            first: Slot::Acc(OperandSize::Word),
            second: Slot::Moffs(OperandSize::Word),
        },
        21 => Shape {
            class: Class::Plain,
            first: Slot::Moffs(OperandSize::Byte),
            second: Slot::Acc(OperandSize::Byte),
        },
        22 => Shape {
            class: Class::Plain,
            first: Slot::Moffs(OperandSize::Word),
            second: Slot::Acc(OperandSize::Word),
        },
        23 => Shape {
            class: Class::PlusRegister,
            first: Slot::Low3(OperandSize::Byte),
            second: Slot::Ib,
        },
        24 => Shape {
            class: Class::PlusRegister,
            first: Slot::Low3(OperandSize::Word),
            second: Slot::Iw,
        },
        25 => Shape {
            class: Class::Plain,
            first: Slot::Ib,
            second: Slot::Nil,
        },
        26 => Shape {
            class: Class::Digit,
            first: Slot::Rm(OperandSize::Byte),
            second: Slot::One,
        },
        27 => Shape {
            class: Class::Digit,
            first: Slot::Rm(OperandSize::Word),
            second: Slot::One,
        },
        28 => Shape {
            class: Class::Digit,
            first: Slot::Rm(OperandSize::Byte),
            second: Slot::Cl,
        },
        29 => Shape {
            class: Class::Digit,
            first: Slot::Rm(OperandSize::Word),
            second: Slot::Cl,
        },
        30 => Shape {
            class: Class::Second0A,
            first: Slot::Nil,
            second: Slot::Nil,
        },
        31 => Shape {
            class: Class::Plain,
            first: Slot::Xlat,
            second: Slot::Nil,
        },
        32 => Shape {
            class: Class::Plain,
            first: Slot::Acc(OperandSize::Word),
            second: Slot::Ib,
        },
        33 => Shape {
            class: Class::Plain,
            first: Slot::Ib,
            second: Slot::Acc(OperandSize::Byte),
        },
        34 => Shape {
            class: Class::Plain,
            first: Slot::Ib,
            second: Slot::Acc(OperandSize::Word),
        },
        35 => Shape {
            class: Class::Plain,
            first: Slot::Cw,
            second: Slot::Nil,
        },
        36 => Shape {
            class: Class::Plain,
            first: Slot::Ptr,
            second: Slot::Nil,
        },
        37 => Shape {
            class: Class::Plain,
            first: Slot::Acc(OperandSize::Byte),
            second: Slot::Dx,
        },
        38 => Shape {
            class: Class::Plain,
            first: Slot::Acc(OperandSize::Word),
            second: Slot::Dx,
        },
        39 => Shape {
            class: Class::Plain,
            first: Slot::Dx,
            second: Slot::Acc(OperandSize::Byte),
        },
        40 => Shape {
            class: Class::Plain,
            first: Slot::Dx,
            second: Slot::Acc(OperandSize::Word),
        },
        41 => Shape {
            class: Class::Digit,
            first: Slot::Rm(OperandSize::Byte),
            second: Slot::Nil,
        },
        42 => Shape {
            class: Class::Digit,
            first: Slot::Rm(OperandSize::Word),
            second: Slot::Nil,
        },
        43 => Shape {
            class: Class::Digit,
            first: Slot::Mem,
            second: Slot::Nil,
        },
        44 => Shape {
            class: Class::Plain,
            first: Slot::Iw,
            second: Slot::Nil,
        },
        _ => Shape {
            class: Class::Unused,
            first: Slot::Nil,
            second: Slot::Nil,
        },
    }
}
