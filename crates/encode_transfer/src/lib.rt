// Data transfer of 000: MOV, XCHG, PUSH, POP, LEA, LES, LDS, XLATB, IN, OUT. Each function decides which form of the table a record takes.
#![tactic(auto)]

ghost use Rattle.std.specs.Prelude.{◌≡◌, eqb, Ok};
ghost use Rattle.encode_groups.specs.declared.Group.TheVariants as G;
ghost use Rattle.encode_spec.specs.Records.{dst, src};
ghost use Rattle.encode_spec.specs.Rules.{is_word};
ghost use Rattle.encode_plans.specs.Sizes.{is_dx, is_bx};
ghost use Rattle.encode_plans.specs.Decisions.{acc_direct, is_ax, mov_form, xchg_form, push_form, pop_form, load_form, xlat_form, port_form, port_decision, decision_in};

use encode_lines::{Decision, Line};
use mrc_compiler::ast::DataSize;
use mrc_compiler::encoder::generate::NoForm;
use mrc_compiler::encoder::{InstructionData, OperandData, OperandKind};

// By kinds: AL or AX has a form of its own beside a direct address; a segment register is a word, and never CS is loaded.
fn mov_form(size: DataSize, dst: &OperandData, src: &OperandData) -> Result<Line, NoForm>
    ensures { result ≡ mov_form size dst.now.kind src.now.kind (acc_direct dst.now src.now) (acc_direct src.now dst.now) (eqb dst.now.rm 1) }
{
    match (size, dst.kind, src.kind) {
        (_, OperandKind::Reg, OperandKind::Imm) => Ok(Line::MovRegImm),
        (_, OperandKind::Mem, OperandKind::Imm) => Ok(Line::MovRmImm),
        (_, OperandKind::Reg, OperandKind::Mem)
            if encode_plans::is_acc_direct(dst.rm, src.mode, src.rm) => { Ok(Line::MovAccMoffs) }
        (_, OperandKind::Reg, OperandKind::Mem) => Ok(Line::MovRegRm),
        (_, OperandKind::Mem, OperandKind::Reg)
            if encode_plans::is_acc_direct(src.rm, dst.mode, dst.rm) => { Ok(Line::MovMoffsAcc) }
        (_, OperandKind::Reg | OperandKind::Mem, OperandKind::Reg) => Ok(Line::MovRmReg),
        (DataSize::Word, OperandKind::Reg | OperandKind::Mem, OperandKind::Seg) => {
            Ok(Line::MovRmSreg)
        }
        (DataSize::Word, OperandKind::Seg, OperandKind::Reg | OperandKind::Mem) if dst.rm != 1 => {
            Ok(Line::MovSregRm)
        }
        _ => Err(NoForm::INVALID_OPERANDS),
    }
}

pub fn encode_group_mov(insn: &InstructionData) -> Result<Decision, NoForm>
    ensures { result ≡ decision_in G.Mov insn.now.num_opers (dst insn.now) (src insn.now) }
{
    let [dst, src] = &insn.opers;
    let size = encode_plans::common_operand_size(dst.size, src.size)?;
    let line = mov_form(size, dst, src)?;
    Ok(Decision { line, size })
}

fn is_ax(size: DataSize, rm: u8) -> bool
    ensures { result ≡ is_ax size rm }
{
    matches!(size, DataSize::Word) && rm == 0
}

// Of two registers the first stands in reg, but AX with a register takes 90 + register; memory stands in r/m.
fn xchg_form(size: DataSize, dst: &OperandData, src: &OperandData) -> Result<Line, NoForm>
    ensures { result ≡ xchg_form dst.now.kind src.now.kind (is_ax size dst.now.rm) (is_ax size src.now.rm) }
{
    match (dst.kind, src.kind) {
        (OperandKind::Reg, OperandKind::Reg) if is_ax(size, dst.rm) => Ok(Line::XchgAccReg),
        (OperandKind::Reg, OperandKind::Reg) if is_ax(size, src.rm) => Ok(Line::XchgRegAcc),
        (OperandKind::Reg, OperandKind::Reg | OperandKind::Mem) => Ok(Line::XchgRegRm),
        (OperandKind::Mem, OperandKind::Reg) => Ok(Line::XchgRmReg),
        _ => Err(NoForm::INVALID_OPERANDS),
    }
}

pub fn encode_group_xchg(insn: &InstructionData) -> Result<Decision, NoForm>
    ensures { result ≡ decision_in G.Xchg insn.now.num_opers (dst insn.now) (src insn.now) }
{
    let [dst, src] = &insn.opers;
    let size = encode_plans::common_operand_size(dst.size, src.size)?;
    let line = xchg_form(size, dst, src)?;
    Ok(Decision { line, size })
}

fn push_form(dst: &OperandData) -> Result<Line, NoForm>
    ensures { result ≡ push_form dst.now.kind (is_word dst.now.size) }
{
    match dst.kind {
        OperandKind::Reg if encode_plans::is_word(dst.size) => Ok(Line::PushReg),
        OperandKind::Mem if encode_plans::is_word(dst.size) => Ok(Line::PushRm),
        OperandKind::Seg => Ok(Line::PushSreg),
        _ => Err(NoForm::INVALID_FIRST),
    }
}

pub fn encode_group_push(insn: &InstructionData) -> Result<Decision, NoForm>
    ensures { result ≡ decision_in G.Push insn.now.num_opers (dst insn.now) (src insn.now) }
{
    let [dst, _] = &insn.opers;
    encode_lines::without_size(push_form(dst))
}

// A word; never CS.
fn pop_form(dst: &OperandData) -> Result<Line, NoForm>
    ensures { result ≡ pop_form dst.now.kind (is_word dst.now.size) (eqb dst.now.rm 1) }
{
    if !encode_plans::is_word(dst.size) {
        return Err(NoForm::INVALID_SIZE);
    }
    match dst.kind {
        OperandKind::Imm => Err(NoForm::INVALID_SIZE),
        OperandKind::Reg => Ok(Line::PopReg),
        OperandKind::Seg if dst.rm == 1 => Err(NoForm::INVALID_OPERANDS),
        OperandKind::Seg => Ok(Line::PopSreg),
        OperandKind::Mem => Ok(Line::PopRm),
    }
}

pub fn encode_group_pop(insn: &InstructionData) -> Result<Decision, NoForm>
    ensures { result ≡ decision_in G.Pop insn.now.num_opers (dst insn.now) (src insn.now) }
{
    let [dst, _] = &insn.opers;
    encode_lines::without_size(pop_form(dst))
}

// A word register and memory.
fn load_form(dst: &OperandData, src: &OperandData) -> Result<Line, NoForm>
    ensures { result ≡ load_form dst.now.kind (is_word dst.now.size) src.now.kind }
{
    match (dst.kind, src.kind) {
        (OperandKind::Reg, OperandKind::Mem) if encode_plans::is_word(dst.size) => {
            Ok(Line::LoadRegMem)
        }
        _ => Err(NoForm::INVALID_OPERANDS),
    }
}

pub fn encode_group_lea(insn: &InstructionData) -> Result<Decision, NoForm>
    ensures { result ≡ decision_in G.Lea insn.now.num_opers (dst insn.now) (src insn.now) }
{
    let [dst, src] = &insn.opers;
    encode_lines::without_size(load_form(dst, src))
}

pub fn encode_group_les_lds(insn: &InstructionData) -> Result<Decision, NoForm>
    ensures { result ≡ decision_in G.LesLds insn.now.num_opers (dst insn.now) (src insn.now) }
{
    encode_group_lea(insn)
}

fn xlat_form(dst: &OperandData) -> Result<Line, NoForm>
    ensures { result ≡ xlat_form dst.now.kind (is_word dst.now.size) (is_bx dst.now.mode dst.now.rm) }
{
    match dst.kind {
        _ if !encode_plans::is_word(dst.size) => Err(NoForm::INVALID_SIZE),
        OperandKind::Mem if encode_plans::is_bx(dst.mode, dst.rm) => Ok(Line::XlatMem),
        _ => Err(NoForm::INVALID_OPERANDS),
    }
}

pub fn encode_group_xlat(insn: &InstructionData) -> Result<Decision, NoForm>
    ensures { result ≡ decision_in G.Xlat insn.now.num_opers (dst insn.now) (src insn.now) }
{
    let [dst, _] = &insn.opers;
    encode_lines::without_size(xlat_form(dst))
}

// IN and OUT: the accumulator, and a port that is an immediate or DX.
fn port_form(
    by_imm: Line,
    by_dx: Line,
    acc: &OperandData,
    port: &OperandData,
) -> Result<Line, NoForm>
    ensures { result ≡ port_form (Ok by_imm) (Ok by_dx) acc.now.kind (eqb acc.now.rm 0) port.now.kind (is_dx port.now.size port.now.rm) }
{
    match (acc.kind, port.kind) {
        (OperandKind::Reg, OperandKind::Imm) if acc.rm == 0 => Ok(by_imm),
        (OperandKind::Reg, OperandKind::Reg)
            if acc.rm == 0 && encode_plans::is_dx(port.size, port.rm) => { Ok(by_dx) }
        _ => Err(NoForm::INVALID_OPERANDS),
    }
}

// Of the accumulator's size.
fn port_decision(
    by_imm: Line,
    by_dx: Line,
    acc: &OperandData,
    port: &OperandData,
) -> Result<Decision, NoForm>
    ensures { result ≡ port_decision (Ok by_imm) (Ok by_dx) acc.now port.now }
{
    let size = encode_plans::stated_size(acc.size, NoForm::INVALID_OPERANDS)?;
    let line = port_form(by_imm, by_dx, acc, port)?;
    Ok(Decision { line, size })
}

pub fn encode_group_in(insn: &InstructionData) -> Result<Decision, NoForm>
    ensures { result ≡ decision_in G.In insn.now.num_opers (dst insn.now) (src insn.now) }
{
    let [dst, src] = &insn.opers;
    port_decision(Line::InAccImm, Line::InAccDx, dst, src)
}

pub fn encode_group_out(insn: &InstructionData) -> Result<Decision, NoForm>
    ensures { result ≡ decision_in G.Out insn.now.num_opers (dst insn.now) (src insn.now) }
{
    let [dst, src] = &insn.opers;
    port_decision(Line::OutImmAcc, Line::OutDxAcc, src, dst)
}
