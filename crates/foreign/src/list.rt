// All strings of one record's instruction.
ghost use Rattle.std.specs.Prelude.{◌≡◌};
ghost use Rattle.foreign_report.specs.Crossing.{report_after};
ghost use Rattle.foreign.specs.EncodeRecord.{record_of};
ghost use Rattle.foreign.specs.ListRecord.{response_listed, response_listing, list_after};

use crate::encode::record_number;
use foreign_report::{Response, response_alone, response_length, response_refusal, write_report};
use mrc_compiler::encoder::EncodeError;

// An answer of the lister.
fn response_listed(listed: Result<usize, EncodeError>) -> Response
    ensures { result ≡ response_listed listed }
{
    match listed {
        Ok(n) => response_length(n),
        Err(e) => response_refusal(e),
    }
}

// Lists the record's instruction into the front of out, and tells the answer.
fn response_listing(rec: &[u8], offset: u16, out: &mut [u8]) -> Response
    ensures value { result ≡ response_listing (record_of rec.now) offset out.old }
    ensures out_after { out.new ≡ list_after (record_of rec.now) offset out.old }
{
    let number = record_number(rec);
    if number == 0 {
        let insn = show_record::instruction_at(rec);
        response_listed(lister::list(insn, offset, out))
    } else {
        response_alone(number)
    }
}

// Lists all strings of 1 to 7 bytes that are the same instruction as a record's at an offset.
//   rec      the record, as fsq_encode's
//   offset   where the strings are to stand
//   out      gets, where it has 96 bytes, entries of 8 bytes from its front: a string's length, its bytes, zeros; shorter strings first, equal
//            lengths by their first differing byte. Its later bytes stay, and a refusal leaves it as it was
//   report   as fsq_encode's; its length is the number of entries
//   answer   0, or the refusal's number; 9 where out has fewer than 96 bytes; 14 and 15 as fsq_encode's
pub fn fsq_list(rec: &[u8], offset: u16, out: &mut [u8], report: &mut [u8]) -> u8
    ensures value { result ≡ (response_listing (record_of rec.now) offset out.old).number }
    ensures out_after { out.new ≡ list_after (record_of rec.now) offset out.old }
    ensures report_after { report.new ≡ report_after (response_listing (record_of rec.now) offset out.old) report.old }
{
    let response = response_listing(rec, offset, out);
    write_report(response, report);
    response.number
}
