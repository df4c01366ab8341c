// The value of a sum.
ghost use Rattle.std.specs.Prelude.{◌≡◌};
ghost use Rattle.sum_spec.specs.Reading.{answer_of};
ghost use Rattle.foreign_report.specs.Crossing.{report_after};
ghost use Rattle.foreign.specs.EvaluateText.{response_answer};

// Evaluates a sum.
//   text     its text, with no blank and no line feed
//   report   as fsq_encode's; its value is the sum's
//   answer   0; 16 where the text is no sum; 17 where it is more than 16 brackets deep; 18 where a value on the way is no i32, or a divisor 0
// In C: uint8_t fsq_evaluate(const uint8_t *text, size_t text_len, uint8_t *report, size_t report_len);
#[unsafe(no_mangle)]
pub extern "C" fn fsq_evaluate(text: &[u8], report: &mut [u8]) -> u8
    ensures value { result ≡ (response_answer (answer_of text.now)).number }
    ensures report_after { report.new ≡ report_after (response_answer (answer_of text.now)) report.old }
{
    foreign::evaluate::fsq_evaluate(text, report)
}
