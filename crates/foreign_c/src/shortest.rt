// One record of a show file, encoded by the shortest string of its instruction.
ghost use Rattle.std.specs.Prelude.{◌≡◌};
ghost use Rattle.foreign_report.specs.Crossing.{report_after};
ghost use Rattle.foreign.specs.EncodeRecord.{record_of};
ghost use Rattle.foreign.specs.ShortestRecord.{response_shortest, shortest_after};

// Encodes a record at an offset by the first string that fsq_list gives for it: none of the same instruction is shorter, and of the same length none is lower.
//   rec      the record, as fsq_encode's
//   offset   where its bytes are to stand
//   out      gets the bytes at its front; its later bytes stay, and a refusal leaves it as it was
//   report   as fsq_encode's
//   answer   as fsq_encode's; 9 where out does not hold the shortest string
// In C: uint8_t fsq_shortest(const uint8_t *rec, size_t rec_len, uint16_t offset, uint8_t *out, size_t out_len, uint8_t *report, size_t report_len);
#[unsafe(no_mangle)]
pub extern "C" fn fsq_shortest(rec: &[u8], offset: u16, out: &mut [u8], report: &mut [u8]) -> u8
    ensures value { result ≡ (response_shortest (record_of rec.now) offset out.old).number }
    ensures out_after { out.new ≡ shortest_after (record_of rec.now) offset out.old }
    ensures report_after { report.new ≡ report_after (response_shortest (record_of rec.now) offset out.old) report.old }
{
    foreign::shortest::fsq_shortest(rec, offset, out, report)
}
