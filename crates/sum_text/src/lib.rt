// The line that `fsqsum` prints for a text: its value, or the refusal (REFERENCE 12).
#![tactic(auto)]

ghost use Rattle.std.specs.Prelude.{◌≡◌, ◌≤◌, length, IfOk};
ghost use Rattle.sum_spec.specs.Sums.{refused};
ghost use Rattle.text_line.specs.Steps.{appended};
ghost use Rattle.sum_text.specs.Lines.{line_of, answer_line, answered, slice_after};

use sum_spec::SumError;
use text_line::{
    Line, TooShort, empty_line, push, push_decimal, push_long_signed, push_text, write_line,
};

fn push_refused(line: Line, number: usize) -> Line
    ensures { result ≡ appended line (line_of (refused number)) }
{
    let word = push_text(line, b"refused ");
    push(push_decimal(word, number), b'\n')
}

fn push_answer(line: Line, answer: Result<i32, SumError>) -> Line
    ensures { result ≡ appended line (answer_line answer) }
{
    match answer {
        Ok(value) => push(push_long_signed(line, value), b'\n'),
        Err(error) => push_refused(line, usize::from(error.number())),
    }
}

// What a slice must hold to be lent: no line is longer.
pub const MOST_ANSWER: usize = 16;

// Writes the line of a text's answer to the front of out, and answers its length. A slice shorter than MOST_ANSWER stays as it was.
pub fn write_answer(text: &[u8], out: &mut [u8]) -> Result<usize, TooShort>
    ensures value { result ≡ answered text.now (length out.old) }
    ensures fits { IfOk result (λ n. n ≤ length out.new) }
    ensures out_after { out.new ≡ slice_after text.now out.old }
{
    if out.len() < MOST_ANSWER {
        return Err(TooShort);
    }
    let line = push_answer(empty_line(), sum_evaluate::evaluate(text));
    Ok(write_line(line, out))
}
