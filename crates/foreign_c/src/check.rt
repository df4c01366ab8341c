// The targets of a show, checked.
ghost use Rattle.std.specs.Prelude.{◌≡◌};
ghost use Rattle.check_spec.specs.Checking.{checked};
ghost use Rattle.foreign_report.specs.Crossing.{report_after};
ghost use Rattle.foreign.specs.CheckShow.{response_checked};

// Checks that every near target of a show, those of Jcc, E0 to E3, E8, E9 and EB, is the start of a record or the end of the show.
//   file     the whole file, as fsq_load's
//   report   as fsq_load's; its length is the image's. Of 25 the record is the index of the first whose target is neither, the value the target, and the length the
//            index of the record that the target falls into, 4294967295 where it falls into none
//   answer   0, or the refusal's number: those of fsq_load but 9, in its order; then 25
// In C: uint8_t fsq_check(const uint8_t *file, size_t file_len, uint8_t *report, size_t report_len);
#[unsafe(no_mangle)]
pub extern "C" fn fsq_check(file: &[u8], report: &mut [u8]) -> u8
    ensures value { result ≡ (response_checked (checked file.now)).number }
    ensures report_after { report.new ≡ report_after (response_checked (checked file.now)) report.old }
{
    foreign::check::fsq_check(file, report)
}
