// What the groups of 000 share: the size of two operands, and small tests.
#![tactic(auto)]

ghost use Rattle.std.specs.Prelude.{◌≡◌, eqb, pos};
ghost use Rattle.mrc_compiler.specs.Choose.{both};
ghost use Rattle.mrc_compiler.specs.Builders.{is_direct_address};
ghost use Rattle.mrc_compiler.specs.Values.{within};
ghost use Rattle.encode_spec.specs.Rules.{is_word};
ghost use Rattle.encode_plans.specs.Sizes.{common_of, stated_size, is_cl, is_dx, is_bx};

use mrc_compiler::ast::DataSize;
use mrc_compiler::encoder;
use mrc_compiler::encoder::OperandSize;
use mrc_compiler::encoder::generate::NoForm;

// The size that two operands share.
pub fn common_operand_size(dst: OperandSize, src: OperandSize) -> Result<DataSize, NoForm>
    ensures { result ≡ common_of dst src }
{
    match (dst, src) {
        (OperandSize::Unspecified, OperandSize::Unspecified) => Err(NoForm::SIZE_NOT_SPECIFIED),
        (OperandSize::Unspecified | OperandSize::Byte, OperandSize::Byte) => Ok(DataSize::Byte),
        (OperandSize::Byte, OperandSize::Unspecified) => Ok(DataSize::Byte),
        (OperandSize::Unspecified | OperandSize::Word, OperandSize::Word) => Ok(DataSize::Word),
        (OperandSize::Word, OperandSize::Unspecified) => Ok(DataSize::Word),
        (OperandSize::Byte, OperandSize::Word) | (OperandSize::Word, OperandSize::Byte) => {
            Err(NoForm::SIZES_DO_NOT_MATCH)
        }
    }
}

// The size that an operand states, or why its group has no form for it.
pub fn stated_size(size: OperandSize, no_form: NoForm) -> Result<DataSize, NoForm>
    ensures { result ≡ stated_size size no_form }
{
    match size {
        OperandSize::Unspecified => Err(no_form),
        OperandSize::Byte => Ok(DataSize::Byte),
        OperandSize::Word => Ok(DataSize::Word),
    }
}

pub fn is_word(size: OperandSize) -> bool
    ensures { result ≡ is_word size }
{
    matches!(size, OperandSize::Word)
}

pub fn is_cl(size: OperandSize, rm: u8) -> bool
    ensures { result ≡ is_cl size rm }
{
    matches!(size, OperandSize::Byte) && rm == 1
}

pub fn is_dx(size: OperandSize, rm: u8) -> bool
    ensures { result ≡ is_dx size rm }
{
    matches!(size, OperandSize::Word) && rm == 2
}

// [BX] without displacement, the address of XLATB.
pub fn is_bx(mode: u8, rm: u8) -> bool
    ensures { result ≡ is_bx mode rm }
{
    mode == 0 && rm == 7
}

// Register 0 beside an address without a base: MOV's A0 to A3.
pub fn is_acc_direct(acc: u8, mode: u8, rm: u8) -> bool
    ensures { result ≡ both (eqb acc 0) (is_direct_address mode rm) }
{
    acc == 0 && encoder::is_direct_address(mode, rm)
}

// A shift's immediate count.
pub fn value_is_one(value: i32) -> bool
    ensures { result ≡ within (pos 1) (pos 1) value }
{
    1 <= value && value <= 1
}
