// One record of a show file, encoded.
ghost use Rattle.std.specs.Prelude.{◌≡◌};
ghost use Rattle.foreign_report.specs.Crossing.{report_after};
ghost use Rattle.foreign.specs.EncodeRecord.{record_of, response_record, out_after};

// Encodes a record of a show file at an offset.
//   rec      the record, 56 bytes, or 57 with a repeat behind its operand count
//   offset   where its bytes are to stand
//   out      gets the bytes at its front; its later bytes stay, and a refusal leaves it as it was
//   report   gets, where it has 28 bytes: length, span start, span end (u32), value, low, high (i32), record (u32), little-endian; its later bytes stay. The
//            record is 4294967295: fsq_load alone names one
//   answer   0, or the refusal's number; 14 where rec is not 56 or 57 bytes long, then 15 where one of its codes is unknown
// In C: uint8_t fsq_encode(const uint8_t *rec, size_t rec_len, uint16_t offset, uint8_t *out, size_t out_len, uint8_t *report, size_t report_len);
#[unsafe(no_mangle)]
pub extern "C" fn fsq_encode(rec: &[u8], offset: u16, out: &mut [u8], report: &mut [u8]) -> u8
    ensures value { result ≡ (response_record (record_of rec.now) offset out.old).number }
    ensures out_after { out.new ≡ out_after (record_of rec.now) offset out.old }
    ensures report_after { report.new ≡ report_after (response_record (record_of rec.now) offset out.old) report.old }
{
    foreign::encode::fsq_encode(rec, offset, out, report)
}
