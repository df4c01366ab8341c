// The entry point of the encoder: 000's encode over a lent slice.
#![tactic(auto)]

ghost use Rattle.std.specs.Prelude.{◌≡◌, ◌++◌, ◌≤◌, leb, length, take, drop};
ghost use Rattle.mrc_compiler.specs.Choose.{pick};
ghost use Rattle.encode_spec.specs.Questions.{span_at, error_of};
ghost use Rattle.encode_spec.specs.Answer.{answer, outcome, slice_after};
ghost use Rattle.encode_run.specs.Run.{empty_run};
ghost use Rattle.encode_codes.specs.Emit.{emitted};
ghost use Rattle.encoder.specs.Coded.{formed, plan_answer, with_repeat};
ghost use Rattle.encoder.specs.Lengths.{length_of};

use encode_run::ByteRun;
use mrc_compiler::ast::Span;
use mrc_compiler::encoder::generate::{At, Codes, NoForm, Why};
use mrc_compiler::encoder::{EncodeError, InstructionData};

// The span of the instruction or of its first operand.
fn span_at(at: At, insn: InstructionData) -> Span
    ensures { result ≡ span_at at insn }
{
    match at {
        At::Operands => insn.opers_span,
        At::First => insn.opers[0].span,
    }
}

// A group's refusal with its span, and the value and limits of JMP's target.
fn error_of(no_form: NoForm, insn: InstructionData) -> EncodeError
    ensures { result ≡ error_of no_form.why no_form.at insn }
{
    let span = span_at(no_form.at, insn);
    match no_form.why {
        Why::InvalidOperands => EncodeError::InvalidOperands(span),
        Why::OperandSizeNotSpecified => EncodeError::OperandSizeNotSpecified(span),
        Why::OperandSizesDoNotMatch => EncodeError::OperandSizesDoNotMatch(span),
        Why::InvalidOperandSize => EncodeError::InvalidOperandSize(span),
        Why::TargetOutOfRange => {
            EncodeError::ImmediateOutOfRange(span, insn.opers[0].imm, 0, 65535)
        }
        Why::NotSupported => EncodeError::NotSupported(span),
    }
}

// The run of a group's answer, or the refusal.
fn run_of_plan(
    plan: Result<Codes, NoForm>,
    insn: InstructionData,
    offset: u16,
) -> Result<ByteRun, EncodeError>
    ensures { result ≡ emitted empty_run (plan_answer plan insn offset) }
{
    match plan {
        Ok(codes) => encode_codes::codes_run(insn, offset, codes),
        Err(no_form) => Err(error_of(no_form, insn)),
    }
}

// The run of a string operation, which is one byte, behind its repeat; a run without a repeat as it is.
fn with_repeat(repeat: u8, run: ByteRun) -> ByteRun
    ensures { result ≡ with_repeat repeat run }
{
    if repeat == 0 {
        return run;
    }
    encode_run::push(
        encode_run::push(encode_run::empty_run(), repeat),
        run.bytes[0],
    )
}

// Question 1: at most two operands, each well formed, and a repeat only where one may stand.
fn require_well_formed(insn: InstructionData) -> Result<(), EncodeError>
    ensures { result ≡ formed insn }
{
    if 2 < insn.num_opers {
        return Err(EncodeError::NotWellFormed(insn.opers_span));
    }
    for oper in insn.opers {
        if !encode_operand::is_well_formed(oper) {
            return Err(EncodeError::NotWellFormed(oper.span));
        }
    }
    if !encode_operand::is_repeat_well_formed(insn.repeat, insn.operation) {
        return Err(EncodeError::InvalidRepeat(insn.opers_span));
    }
    Ok(())
}

// Questions 1 to 7: the run of a record at an offset, or the refusal.
pub fn run_of(insn: InstructionData, offset: u16) -> Result<ByteRun, EncodeError>
    ensures { result ≡ emitted empty_run (answer insn offset) }
{
    require_well_formed(insn)?;
    let run = run_of_plan(encode_dispatch::plan_of(insn), insn, offset)?;
    Ok(with_repeat(insn.repeat, run))
}

// What encode answers where the slice is long enough.
pub fn encoded_length(insn: InstructionData, offset: u16) -> Result<usize, EncodeError>
    ensures { result ≡ length_of (answer insn offset) }
{
    let run = run_of(insn, offset)?;
    Ok(run.len)
}

// Writes the run to the front of out where it fits, and else nothing.
pub fn write_run(run: ByteRun, out: &mut [u8]) -> bool
    requires { run.len ≤ 7 }
    ensures value { result ≡ leb run.len (length out.old) }
    ensures out_after { out.new ≡ pick (leb run.len (length out.old)) (take run.len run.bytes ++ drop run.len out.old) out.old }
{
    let n = run.len;
    if out.len() < n {
        return false;
    }
    out[..n].copy_from_slice(&run.bytes[..n]);
    true
}

// Encodes a record at an offset into the front of out: the number of bytes, or the refusal, which leaves out as it was.
pub fn encode(insn: InstructionData, offset: u16, out: &mut [u8]) -> Result<usize, EncodeError>
    ensures value { result ≡ outcome (answer insn offset) insn.opers_span out.old }
    ensures out_after { out.new ≡ slice_after (answer insn offset) out.old }
{
    let run = run_of(insn, offset)?;
    if write_run(run, out) {
        Ok(run.len)
    } else {
        Err(EncodeError::SliceTooShort(insn.opers_span))
    }
}
