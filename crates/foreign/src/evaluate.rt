// The value of a sum.
ghost use Rattle.std.specs.Prelude.{◌≡◌};
ghost use Rattle.sum_spec.specs.Reading.{answer_of};
ghost use Rattle.foreign_report.specs.Crossing.{report_after};
ghost use Rattle.foreign.specs.EvaluateText.{response_answer};

use foreign_report::{Response, response_alone, response_value, write_report};
use sum_spec::SumError;

// An answer of the evaluator.
fn response_answer(answer: Result<i32, SumError>) -> Response
    ensures { result ≡ response_answer answer }
{
    match answer {
        Ok(value) => response_value(value),
        Err(error) => response_alone(error.number()),
    }
}

// Evaluates a sum.
//   text     its text, with no blank and no line feed
//   report   as fsq_encode's; its value is the sum's
//   answer   0; 16 where the text is no sum; 17 where it is more than 16 brackets deep; 18 where a value on the way is no i32, or a divisor 0
pub fn fsq_evaluate(text: &[u8], report: &mut [u8]) -> u8
    ensures value { result ≡ (response_answer (answer_of text.now)).number }
    ensures report_after { report.new ≡ report_after (response_answer (answer_of text.now)) report.old }
{
    let answer = sum_evaluate::evaluate(text);
    let response = response_answer(answer);
    write_report(response, report);
    response.number
}
