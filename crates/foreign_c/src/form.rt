// The form of one record, or the question that refuses it, as a line of text.
ghost use Rattle.std.specs.Prelude.{◌≡◌};
ghost use Rattle.foreign_report.specs.Crossing.{report_after};
ghost use Rattle.foreign.specs.EncodeRecord.{record_of};
ghost use Rattle.foreign.specs.FormRecord.{response_form, form_after};

// Tells by which form a record at an offset is written, or which question refuses it.
//   rec      the record, as fsq_encode's
//   offset   where its bytes are to stand
//   out      gets, where it has 64 bytes, the line that fsqform prints, `form ..` or `question N`, with its line feed; its later bytes stay
//   report   as fsq_encode's; its length is that of the line
//   answer   0, also where the record is refused; 9 where out has fewer than 64 bytes; 14 and 15 as fsq_encode's
// In C: uint8_t fsq_form(const uint8_t *rec, size_t rec_len, uint16_t offset, uint8_t *out, size_t out_len, uint8_t *report, size_t report_len);
#[unsafe(no_mangle)]
pub extern "C" fn fsq_form(rec: &[u8], offset: u16, out: &mut [u8], report: &mut [u8]) -> u8
    ensures value { result ≡ (response_form (record_of rec.now) offset out.old).number }
    ensures out_after { out.new ≡ form_after (record_of rec.now) offset out.old }
    ensures report_after { report.new ≡ report_after (response_form (record_of rec.now) offset out.old) report.old }
{
    foreign::form::fsq_form(rec, offset, out, report)
}
