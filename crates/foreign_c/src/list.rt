// All strings of one record's instruction.
ghost use Rattle.std.specs.Prelude.{◌≡◌};
ghost use Rattle.foreign_report.specs.Crossing.{report_after};
ghost use Rattle.foreign.specs.EncodeRecord.{record_of};
ghost use Rattle.foreign.specs.ListRecord.{response_listing, list_after};

// Lists all strings of 1 to 7 bytes that are the same instruction as a record's at an offset.
//   rec      the record, as fsq_encode's
//   offset   where the strings are to stand
//   out      gets, where it has 96 bytes, entries of 8 bytes from its front: a string's length, its bytes, zeros; shorter strings first, equal
//            lengths by their first differing byte. Its later bytes stay, and a refusal leaves it as it was
//   report   as fsq_encode's; its length is the number of entries
//   answer   0, or the refusal's number; 9 where out has fewer than 96 bytes; 14 and 15 as fsq_encode's
// In C: uint8_t fsq_list(const uint8_t *rec, size_t rec_len, uint16_t offset, uint8_t *out, size_t out_len, uint8_t *report, size_t report_len);
#[unsafe(no_mangle)]
pub extern "C" fn fsq_list(rec: &[u8], offset: u16, out: &mut [u8], report: &mut [u8]) -> u8
    ensures value { result ≡ (response_listing (record_of rec.now) offset out.old).number }
    ensures out_after { out.new ≡ list_after (record_of rec.now) offset out.old }
    ensures report_after { report.new ≡ report_after (response_listing (record_of rec.now) offset out.old) report.old }
{
    foreign::list::fsq_list(rec, offset, out, report)
}
