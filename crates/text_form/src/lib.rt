// The line that `fsqform` prints for a ground: a form, or a question (REFERENCE 9).
#![tactic(auto)]

ghost use Rattle.std.specs.Prelude.{◌≡◌};
ghost use Rattle.encode_spec.specs.Records.{dst, src};
ghost use Rattle.encode_form.specs.Ground.{ground};
ghost use Rattle.text_line.specs.Steps.{appended};
ghost use Rattle.text_form.specs.Lines.{kind_name, size_name, digit_text, operand_text, used_text, limits_text, form_line, question_line, ground_line, explained, explained_in};

use encode_form::{Ground, Limits, Written};
use mrc_compiler::encoder::{EncodeError, InstructionData, OperandData, OperandKind, OperandSize};
use text_line::{
    Line, empty_line, push, push_decimal, push_hex_byte, push_signed, push_text, write_line,
};

fn push_kind(line: Line, kind: OperandKind) -> Line
    ensures { result ≡ appended line (kind_name kind) }
{
    match kind {
        OperandKind::Imm => push_text(line, b"Imm"),
        OperandKind::Reg => push_text(line, b"Reg"),
        OperandKind::Seg => push_text(line, b"Seg"),
        OperandKind::Mem => push_text(line, b"Mem"),
    }
}

fn push_size(line: Line, size: OperandSize) -> Line
    ensures { result ≡ appended line (size_name size) }
{
    match size {
        OperandSize::Unspecified => push_text(line, b"Unspecified"),
        OperandSize::Byte => push_text(line, b"Byte"),
        OperandSize::Word => push_text(line, b"Word"),
    }
}

fn push_digit(line: Line, digit: Option<u8>) -> Line
    ensures { result ≡ appended line (digit_text digit) }
{
    match digit {
        None => line,
        Some(n) => push_decimal(push_text(line, b" /"), n as usize),
    }
}

fn push_operand(line: Line, oper: OperandData) -> Line
    ensures { result ≡ appended line (operand_text oper) }
{
    let behind = push(line, 0x20);
    let named = push_kind(behind, oper.kind);
    let colon = push(named, 0x3A);
    push_size(colon, oper.size)
}

// The operand where the form uses so many.
#[tactic(auto, unfolding(crate::specs::Lines::used_text))]
fn push_used(line: Line, at_least: u8, operands: u8, oper: OperandData) -> Line
    ensures { result ≡ appended line (used_text at_least operands oper) }
{
    if at_least <= operands {
        push_operand(line, oper)
    } else {
        line
    }
}

fn push_limits(line: Line, limits: Option<Limits>) -> Line
    ensures { result ≡ appended line (limits_text limits) }
{
    match limits {
        None => push_text(line, b" -"),
        Some(limits) => {
            let behind = push(line, 0x20);
            let from = push_signed(behind, limits.low);
            let dots = push_text(from, b"..");
            push_signed(dots, limits.high)
        }
    }
}

// The form of a record.
pub fn push_form(line: Line, written: Written, insn: InstructionData) -> Line
    ensures { result ≡ appended line (form_line written (dst insn) (src insn)) }
{
    let dst = insn.opers[0];
    let src = insn.opers[1];
    let word = push_text(line, b"form ");
    let opcode = push_hex_byte(word, written.opcode);
    let extended = push_digit(opcode, written.digit);
    let first = push_used(extended, 1, written.operands, dst);
    let second = push_used(first, 2, written.operands, src);
    let limited = push_limits(second, written.limits);
    push(limited, 0x0A)
}

// The question that refused a record.
pub fn push_question(line: Line, number: u8) -> Line
    ensures { result ≡ appended line (question_line number) }
{
    let word = push_text(line, b"question ");
    let question = push_decimal(word, number as usize);
    push(question, 0x0A)
}

pub fn push_ground(line: Line, ground: Ground, insn: InstructionData) -> Line
    ensures { result ≡ appended line (ground_line ground insn) }
{
    match ground {
        Ground::Form(written) => push_form(line, written, insn),
        Ground::Question(number) => push_question(line, number),
    }
}

// What a slice must hold to be lent: no line is longer.
pub const MOST_LINE: usize = 64;

// Writes the line of a record's ground at an offset to the front of out, and answers its length. A slice shorter than MOST_LINE stays as it was, and is 9.
pub fn write_ground(
    insn: InstructionData,
    offset: u16,
    out: &mut [u8],
) -> Result<usize, EncodeError>
    ensures value { result ≡ explained (ground_line (ground insn offset) insn) insn.opers_span out.old }
    ensures out_after { out.new ≡ explained_in (ground_line (ground insn offset) insn) out.old }
{
    let span = insn.opers_span;
    if out.len() < MOST_LINE {
        return Err(EncodeError::SliceTooShort(span));
    }
    let ground = encode_form::ground_of(insn, offset);
    let line = push_ground(empty_line(), ground, insn);
    let n = write_line(line, out);
    Ok(n)
}
