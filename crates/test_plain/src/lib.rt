// The plain encoder by itself, with what `fsq_encode` promises (`tools/staticlib test_plain`): what the faster one has to equal is run beside it in the tests and measured.
#![tactic(auto)]

ghost use Rattle.std.specs.Prelude.{◌≡◌};
ghost use Rattle.foreign_report.specs.Crossing.{report_after};
ghost use Rattle.foreign.specs.EncodeRecord.{record_of, response_record, out_after};

use foreign::encode::response_plain;
use foreign_report::write_report;

// In C: uint8_t fsq_plain(const uint8_t *rec, size_t rec_len, uint16_t offset, uint8_t *out, size_t out_len, uint8_t *report, size_t report_len);
#[unsafe(no_mangle)]
pub extern "C" fn fsq_plain(rec: &[u8], offset: u16, out: &mut [u8], report: &mut [u8]) -> u8
    ensures value { result ≡ (response_record (record_of rec.now) offset out.old).number }
    ensures out_after { out.new ≡ out_after (record_of rec.now) offset out.old }
    ensures report_after { report.new ≡ report_after (response_record (record_of rec.now) offset out.old) report.old }
{
    let response = response_plain(rec, offset, out);
    write_report(response, report);
    response.number
}
