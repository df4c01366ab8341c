// Arithmetic and logic of 000: ADD to CMP, NOT to IDIV, TEST, INC and DEC, shifts. Each function decides which form of the table a record takes.
#![tactic(auto)]

ghost use Rattle.std.specs.Prelude.{◌≡◌, eqb, pos, Ok};
ghost use Rattle.encode_groups.specs.declared.Group.TheVariants as G;
ghost use Rattle.mrc_compiler.specs.Values.{within};
ghost use Rattle.encode_spec.specs.Records.{dst, src};
ghost use Rattle.encode_plans.specs.Sizes.{is_cl};
ghost use Rattle.encode_plans.specs.Decisions.{takes_byte, add_form, rm_form, test_form, inc_form, shift_by, decision_in};

use encode_lines::{Decision, Line};
use mrc_compiler::ast::DataSize;
use mrc_compiler::encoder;
use mrc_compiler::encoder::generate::NoForm;
use mrc_compiler::encoder::{InstructionData, OperandData, OperandKind};

// A word immediate that is a signed byte takes 83.
fn takes_byte(size: DataSize, value: i32) -> bool
    ensures { result ≡ takes_byte size value }
{
    matches!(size, DataSize::Word) && encoder::value_is_signed_byte(value)
}

// By kinds; beside AL or AX an immediate takes the accumulator's form.
fn add_form(size: DataSize, dst: &OperandData, src: &OperandData) -> Result<Line, NoForm>
    ensures { result ≡ add_form dst.now.kind src.now.kind (eqb dst.now.rm 0) (takes_byte size src.now.imm) }
{
    match (dst.kind, src.kind) {
        (OperandKind::Reg | OperandKind::Mem, OperandKind::Imm) if takes_byte(size, src.imm) => {
            Ok(Line::ArithRmImmSx)
        }
        (OperandKind::Reg, OperandKind::Imm) if dst.rm == 0 => Ok(Line::ArithAccImm),
        (OperandKind::Reg | OperandKind::Mem, OperandKind::Imm) => Ok(Line::ArithRmImm),
        (OperandKind::Reg | OperandKind::Mem, OperandKind::Reg) => Ok(Line::ArithRmReg),
        (OperandKind::Reg, OperandKind::Mem) => Ok(Line::ArithRegRm),
        _ => Err(NoForm::INVALID_OPERANDS),
    }
}

pub fn encode_group_add_or_adc_sbb_and_sub_xor_cmp(
    insn: &InstructionData,
) -> Result<Decision, NoForm>
    ensures { result ≡ decision_in G.Arithmetic insn.now.num_opers (dst insn.now) (src insn.now) }
{
    let [dst, src] = &insn.opers;
    let size = encode_plans::common_operand_size(dst.size, src.size)?;
    let line = add_form(size, dst, src)?;
    Ok(Decision { line, size })
}

// A register or memory in r/m.
fn rm_form(line: Line, kind: OperandKind) -> Result<Line, NoForm>
    ensures { result ≡ rm_form (Ok line) kind }
{
    match kind {
        OperandKind::Reg | OperandKind::Mem => Ok(line),
        OperandKind::Imm | OperandKind::Seg => Err(NoForm::INVALID_OPERANDS),
    }
}

pub fn encode_group_not_neg_mul_imul_div_idiv(insn: &InstructionData) -> Result<Decision, NoForm>
    ensures { result ≡ decision_in G.Unary insn.now.num_opers (dst insn.now) (src insn.now) }
{
    let [dst, _] = &insn.opers;
    let size = encode_plans::stated_size(dst.size, NoForm::SIZE_NOT_SPECIFIED)?;
    let line = rm_form(Line::UnaryRm, dst.kind)?;
    Ok(Decision { line, size })
}

// By kinds; beside AL or AX an immediate takes the accumulator's form.
fn test_form(dst: &OperandData, src: &OperandData) -> Result<Line, NoForm>
    ensures { result ≡ test_form dst.now.kind src.now.kind (eqb dst.now.rm 0) }
{
    match (dst.kind, src.kind) {
        (OperandKind::Reg, OperandKind::Imm) if dst.rm == 0 => Ok(Line::TestAccImm),
        (OperandKind::Reg | OperandKind::Mem, OperandKind::Imm) => Ok(Line::TestRmImm),
        (OperandKind::Reg | OperandKind::Mem, OperandKind::Reg) => Ok(Line::TestRmReg),
        (OperandKind::Reg, OperandKind::Mem) => Ok(Line::TestRegRm),
        _ => Err(NoForm::INVALID_OPERANDS),
    }
}

pub fn encode_group_test(insn: &InstructionData) -> Result<Decision, NoForm>
    ensures { result ≡ decision_in G.Test insn.now.num_opers (dst insn.now) (src insn.now) }
{
    let [dst, src] = &insn.opers;
    let size = encode_plans::common_operand_size(dst.size, src.size)?;
    let line = test_form(dst, src)?;
    Ok(Decision { line, size })
}

// A word register is in the opcode.
fn inc_form(size: DataSize, kind: OperandKind) -> Result<Line, NoForm>
    ensures { result ≡ inc_form size kind }
{
    match (kind, size) {
        (OperandKind::Reg, DataSize::Word) => Ok(Line::IncReg),
        (OperandKind::Reg | OperandKind::Mem, _) => Ok(Line::IncRm),
        (OperandKind::Imm | OperandKind::Seg, _) => Err(NoForm::INVALID_OPERANDS),
    }
}

pub fn encode_group_inc_dec(insn: &InstructionData) -> Result<Decision, NoForm>
    ensures { result ≡ decision_in G.IncDec insn.now.num_opers (dst insn.now) (src insn.now) }
{
    let [dst, _] = &insn.opers;
    let size = encode_plans::stated_size(dst.size, NoForm::INVALID_SIZE)?;
    let line = inc_form(size, dst.kind)?;
    Ok(Decision { line, size })
}

// A register or memory by 1 or by CL.
fn shift_form(dst: &OperandData, src: &OperandData) -> Result<Line, NoForm>
    ensures { result ≡ rm_form (shift_by src.now.kind (within (pos 1) (pos 1) src.now.imm) (is_cl src.now.size src.now.rm)) dst.now.kind }
{
    match (dst.kind, src.kind) {
        (OperandKind::Reg | OperandKind::Mem, OperandKind::Imm)
            if encode_plans::value_is_one(src.imm) => { Ok(Line::ShiftRmOne) }
        (OperandKind::Reg | OperandKind::Mem, OperandKind::Reg)
            if encode_plans::is_cl(src.size, src.rm) => { Ok(Line::ShiftRmCl) }
        _ => Err(NoForm::INVALID_OPERANDS),
    }
}

pub fn encode_group_rol_ror_rcl_rcr_shl_sal_shr_sar(
    insn: &InstructionData,
) -> Result<Decision, NoForm>
    ensures { result ≡ decision_in G.Shift insn.now.num_opers (dst insn.now) (src insn.now) }
{
    let [dst, src] = &insn.opers;
    let size = encode_plans::stated_size(dst.size, NoForm::SIZE_NOT_SPECIFIED_FIRST)?;
    let line = shift_form(dst, src)?;
    Ok(Decision { line, size })
}
