// One record of a show file, encoded.
ghost use Rattle.std.specs.Prelude.{◌≡◌};
ghost use Rattle.foreign_report.specs.Crossing.{report_after};
ghost use Rattle.foreign.specs.EncodeRecord.{record_of, record_number, response_record, out_after};

use foreign_report::{Response, response_alone, response_encoded, write_report};

// 14 or 15 where the bytes are not a record, else 0.
pub fn record_number(rec: &[u8]) -> u8
    ensures { result ≡ record_number (record_of rec.now) }
{
    if show_record::is_record(rec.len()) {
        if show_record::codes_known(rec) {
            return 0;
        }
        return 15;
    }
    14
}

// Encodes the record into the front of out, and tells the answer: by the encoder.
pub fn response_plain(rec: &[u8], offset: u16, out: &mut [u8]) -> Response
    ensures value { result ≡ response_record (record_of rec.now) offset out.old }
    ensures out_after { out.new ≡ out_after (record_of rec.now) offset out.old }
{
    let number = record_number(rec);
    if number == 0 {
        let insn = show_record::instruction_at(rec);
        response_encoded(encoder::encode(insn, offset, out))
    } else {
        response_alone(number)
    }
}

// The same, off the record's bytes where that gives a run that out holds.
fn response_record(rec: &[u8], offset: u16, out: &mut [u8]) -> Response
    ensures value { result ≡ response_record (record_of rec.now) offset out.old }
    ensures out_after { out.new ≡ out_after (record_of rec.now) offset out.old }
{
    let packed = fast_encoder::packed_at(rec, offset);
    if fast_run::fits(packed, out.len()) {
        let n = fast_run::length_of(packed);
        fast_run::write_packed(packed, out);
        return response_encoded(Ok(n));
    }
    response_plain(rec, offset, out)
}

// Encodes a record of a show file at an offset.
//   rec      the record, 56 bytes, or 57 with a repeat behind its operand count
//   offset   where its bytes are to stand
//   out      gets the bytes at its front; its later bytes stay, and a refusal leaves it as it was
//   report   gets, where it has 28 bytes: length, span start, span end (u32), value, low, high (i32), record (u32), little-endian; its later bytes stay. The
//            record is 4294967295: fsq_load alone names one
//   answer   0, or the refusal's number; 14 where rec is not 56 or 57 bytes long, then 15 where one of its codes is unknown
pub fn fsq_encode(rec: &[u8], offset: u16, out: &mut [u8], report: &mut [u8]) -> u8
    ensures value { result ≡ (response_record (record_of rec.now) offset out.old).number }
    ensures out_after { out.new ≡ out_after (record_of rec.now) offset out.old }
    ensures report_after { report.new ≡ report_after (response_record (record_of rec.now) offset out.old) report.old }
{
    let response = response_record(rec, offset, out);
    write_report(response, report);
    response.number
}
