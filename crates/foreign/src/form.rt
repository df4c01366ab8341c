// The form of one record, or the question that refuses it, as a line of text.
ghost use Rattle.std.specs.Prelude.{◌≡◌};
ghost use Rattle.foreign_report.specs.Crossing.{report_after};
ghost use Rattle.foreign.specs.EncodeRecord.{record_of};
ghost use Rattle.foreign.specs.FormRecord.{response_form, form_after};

use crate::encode::record_number;
use foreign_report::{Response, response_alone, response_encoded, write_report};

// Writes the line to the front of out, and tells the answer.
fn response_form(rec: &[u8], offset: u16, out: &mut [u8]) -> Response
    ensures value { result ≡ response_form (record_of rec.now) offset out.old }
    ensures out_after { out.new ≡ form_after (record_of rec.now) offset out.old }
{
    let number = record_number(rec);
    if number == 0 {
        let insn = show_record::instruction_at(rec);
        response_encoded(text_form::write_ground(insn, offset, out))
    } else {
        response_alone(number)
    }
}

// Tells by which form a record at an offset is written, or which question refuses it.
//   rec      the record, as fsq_encode's
//   offset   where its bytes are to stand
//   out      gets, where it has 64 bytes, the line that fsqform prints, `form ..` or `question N`, with its line feed; its later bytes stay
//   report   as fsq_encode's; its length is that of the line
//   answer   0, also where the record is refused; 9 where out has fewer than 64 bytes; 14 and 15 as fsq_encode's
pub fn fsq_form(rec: &[u8], offset: u16, out: &mut [u8], report: &mut [u8]) -> u8
    ensures value { result ≡ (response_form (record_of rec.now) offset out.old).number }
    ensures out_after { out.new ≡ form_after (record_of rec.now) offset out.old }
    ensures report_after { report.new ≡ report_after (response_form (record_of rec.now) offset out.old) report.old }
{
    let response = response_form(rec, offset, out);
    write_report(response, report);
    response.number
}
