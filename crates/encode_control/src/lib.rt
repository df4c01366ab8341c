// Control transfer of 000, and the groups without operands. Each function decides which form of the table a record takes.
#![tactic(auto)]

ghost use Rattle.std.specs.Prelude.{◌≡◌, pos, Ok, Err};
ghost use Rattle.mrc_compiler.specs.Values.{within};
ghost use Rattle.encode_groups.specs.declared.Group.TheVariants as G;
ghost use Rattle.encode_spec.specs.Records.{dst, src};
ghost use Rattle.encode_plans.specs.Decisions.{ret_form, through_form, far_form, call_form, jmp_form, short_form, int_form, decision_in};

use encode_lines::{Decision, Line};
use mrc_compiler::encoder;
use mrc_compiler::encoder::generate::NoForm;
use mrc_compiler::encoder::{InstructionData, JumpKind, OperandData, OperandKind, OperandSize};

// With an operand, which is an immediate.
fn ret_form(kind: OperandKind) -> Result<Line, NoForm>
    ensures { result ≡ ret_form kind }
{
    match kind {
        OperandKind::Imm => Ok(Line::RetImm),
        _ => Err(NoForm::INVALID_OPERANDS),
    }
}

pub fn encode_group_ret_retn_retf(insn: &InstructionData) -> Result<Decision, NoForm>
    ensures { result ≡ decision_in G.Ret insn.now.num_opers (dst insn.now) (src insn.now) }
{
    if insn.num_opers == 0 {
        return Ok(encode_lines::plain(Line::Ret));
    }
    let [dst, _] = &insn.opers;
    encode_lines::without_size(ret_form(dst.kind))
}

// Through a register or memory: near, and no Byte; Far and Short are refused as the last two say.
fn through_form(
    line: Line,
    dst: &OperandData,
    if_far: Result<Line, NoForm>,
    if_short: Result<Line, NoForm>,
) -> Result<Line, NoForm>
    ensures { result ≡ through_form (Ok line) dst.now.jmp_kind dst.now.size if_far if_short }
{
    match (dst.jmp_kind, dst.size) {
        (Some(JumpKind::Far), _) => if_far,
        (Some(JumpKind::Short), _) => if_short,
        (_, OperandSize::Byte) => Err(NoForm::INVALID_OPERANDS),
        _ => Ok(line),
    }
}

// Through memory that holds a far target, no Byte.
fn far_form(size: OperandSize) -> Result<Line, NoForm>
    ensures { result ≡ far_form size }
{
    match size {
        OperandSize::Byte => Err(NoForm::INVALID_OPERANDS),
        OperandSize::Unspecified | OperandSize::Word => Ok(Line::CallMemFar),
    }
}

fn call_form(dst: &OperandData) -> Result<Line, NoForm>
    ensures { result ≡ call_form dst.now.kind dst.now.jmp_kind dst.now.size }
{
    let refused = Err(NoForm::INVALID_OPERANDS);
    match (dst.kind, dst.jmp_kind) {
        (OperandKind::Imm, None | Some(JumpKind::Near)) => Ok(Line::CallRel),
        (OperandKind::Reg, _) => through_form(Line::CallRm, dst, refused, refused),
        (OperandKind::Mem, _) => through_form(Line::CallRm, dst, far_form(dst.size), refused),
        _ => refused,
    }
}

pub fn encode_group_call(insn: &InstructionData) -> Result<Decision, NoForm>
    ensures { result ≡ decision_in G.Call insn.now.num_opers (dst insn.now) (src insn.now) }
{
    let [dst, _] = &insn.opers;
    encode_lines::without_size(call_form(dst))
}

fn jmp_form(dst: &OperandData) -> Result<Line, NoForm>
    ensures { result ≡ jmp_form dst.now.kind dst.now.jmp_kind dst.now.size (within (pos 0) (pos 65535) dst.now.imm) }
{
    let refused = Err(NoForm::INVALID_FIRST);
    match (dst.kind, dst.jmp_kind) {
        (OperandKind::Imm, _) if !encoder::value_is_word(dst.imm) => {
            Err(NoForm::TARGET_OUT_OF_RANGE)
        }
        (OperandKind::Imm, None | Some(JumpKind::Near)) => Ok(Line::JmpRel),
        (OperandKind::Imm, Some(JumpKind::Far)) => Ok(Line::JmpPtr),
        (OperandKind::Imm, Some(JumpKind::Short)) => Ok(Line::JmpShort),
        (OperandKind::Reg | OperandKind::Mem, _) => {
            through_form(Line::JmpRm, dst, refused, refused)
        }
        (OperandKind::Seg, _) => Err(NoForm::INVALID_OPERANDS),
    }
}

pub fn encode_group_jmp(insn: &InstructionData) -> Result<Decision, NoForm>
    ensures { result ≡ decision_in G.Jmp insn.now.num_opers (dst insn.now) (src insn.now) }
{
    let [dst, _] = &insn.opers;
    encode_lines::without_size(jmp_form(dst))
}

// A distance byte, of no kind or Short; else refused.
fn short_form(dst: &OperandData, no_form: NoForm) -> Result<Line, NoForm>
    ensures { result ≡ short_form dst.now.kind dst.now.jmp_kind (Err no_form) }
{
    match (dst.kind, dst.jmp_kind) {
        (OperandKind::Imm, None | Some(JumpKind::Short)) => Ok(Line::ShortRel),
        _ => Err(no_form),
    }
}

pub fn encode_group_jcc(insn: &InstructionData) -> Result<Decision, NoForm>
    ensures { result ≡ decision_in G.Jcc insn.now.num_opers (dst insn.now) (src insn.now) }
{
    let [dst, _] = &insn.opers;
    encode_lines::without_size(short_form(dst, NoForm::INVALID_FIRST))
}

pub fn encode_group_loopc(insn: &InstructionData) -> Result<Decision, NoForm>
    ensures { result ≡ decision_in G.Loopc insn.now.num_opers (dst insn.now) (src insn.now) }
{
    let [dst, _] = &insn.opers;
    encode_lines::without_size(short_form(dst, NoForm::INVALID_OPERANDS))
}

pub fn encode_group_no_operands(insn: &InstructionData) -> Result<Decision, NoForm>
    ensures { result ≡ decision_in G.NoOperands insn.now.num_opers (dst insn.now) (src insn.now) }
{
    Ok(encode_lines::plain(Line::Single))
}

pub fn encode_group_prefixes(insn: &InstructionData) -> Result<Decision, NoForm>
    ensures { result ≡ decision_in G.Prefixes insn.now.num_opers (dst insn.now) (src insn.now) }
{
    Ok(encode_lines::plain(Line::Single))
}

fn int_form(kind: OperandKind) -> Result<Line, NoForm>
    ensures { result ≡ int_form kind }
{
    match kind {
        OperandKind::Imm => Ok(Line::IntImm),
        _ => Err(NoForm::INVALID_FIRST),
    }
}

pub fn encode_group_int(insn: &InstructionData) -> Result<Decision, NoForm>
    ensures { result ≡ decision_in G.Int insn.now.num_opers (dst insn.now) (src insn.now) }
{
    let [dst, _] = &insn.opers;
    encode_lines::without_size(int_form(dst.kind))
}

pub fn encode_group_aam(insn: &InstructionData) -> Result<Decision, NoForm>
    ensures { result ≡ decision_in G.Aam insn.now.num_opers (dst insn.now) (src insn.now) }
{
    Ok(encode_lines::plain(Line::Aam))
}

pub fn encode_group_aad(insn: &InstructionData) -> Result<Decision, NoForm>
    ensures { result ≡ decision_in G.Aad insn.now.num_opers (dst insn.now) (src insn.now) }
{
    Ok(encode_lines::plain(Line::Aad))
}
