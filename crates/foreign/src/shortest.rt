// One record of a show file, encoded by the shortest string of its instruction.
ghost use Rattle.std.specs.Prelude.{◌≡◌};
ghost use Rattle.foreign_report.specs.Crossing.{report_after};
ghost use Rattle.foreign.specs.EncodeRecord.{record_of};
ghost use Rattle.foreign.specs.ShortestRecord.{response_shortest, shortest_after};

use crate::encode::record_number;
use foreign_report::{Response, response_alone, response_encoded, write_report};

// Encodes the record into the front of out, and tells the answer.
fn response_shortest(rec: &[u8], offset: u16, out: &mut [u8]) -> Response
    ensures value { result ≡ response_shortest (record_of rec.now) offset out.old }
    ensures out_after { out.new ≡ shortest_after (record_of rec.now) offset out.old }
{
    let number = record_number(rec);
    if number == 0 {
        let insn = show_record::instruction_at(rec);
        response_encoded(shortest_encoder::encode_shortest(insn, offset, out))
    } else {
        response_alone(number)
    }
}

// Encodes a record at an offset by the first string that fsq_list gives for it: none of the same instruction is shorter, and of the same length none is lower.
//   rec      the record, as fsq_encode's
//   offset   where its bytes are to stand
//   out      gets the bytes at its front; its later bytes stay, and a refusal leaves it as it was
//   report   as fsq_encode's
//   answer   as fsq_encode's; 9 where out does not hold the shortest string
pub fn fsq_shortest(rec: &[u8], offset: u16, out: &mut [u8], report: &mut [u8]) -> u8
    ensures value { result ≡ (response_shortest (record_of rec.now) offset out.old).number }
    ensures out_after { out.new ≡ shortest_after (record_of rec.now) offset out.old }
    ensures report_after { report.new ≡ report_after (response_shortest (record_of rec.now) offset out.old) report.old }
{
    let response = response_shortest(rec, offset, out);
    write_report(response, report);
    response.number
}
