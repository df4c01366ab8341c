// The targets of a show, checked.
ghost use Rattle.std.specs.Prelude.{◌≡◌};
ghost use Rattle.check_spec.specs.Checking.{checked};
ghost use Rattle.foreign_report.specs.Crossing.{report_after};
ghost use Rattle.foreign.specs.CheckShow.{response_stray, response_checked};

use crate::load::response_load_error;
use check_spec::CheckError;
use foreign_report::{NO_RECORD, Response, response_length, write_report};
use mrc_compiler::ast::Span;

// A target that is no record's start and not the end.
fn response_stray(k: usize, target: u16, around: u32) -> Response
    ensures { result ≡ response_stray k target around }
{
    Response {
        number: 25,
        length: around,
        span: Span { start: 0, end: 0 },
        value: target as i32,
        low: 0,
        high: 0,
        record: (k % 4294967296) as u32,
    }
}

// An answer of the check.
fn response_checked(answer: Result<usize, CheckError>) -> Response
    ensures { result ≡ response_checked answer }
{
    match answer {
        Ok(n) => response_length(n),
        Err(CheckError::Inside(k, target, j)) => {
            response_stray(k, target, (j % 4294967296) as u32)
        },
        Err(CheckError::Outside(k, target)) => response_stray(k, target, NO_RECORD),
        Err(CheckError::Load(error)) => response_load_error(error),
    }
}

// Checks that every near target of a show, those of Jcc, E0 to E3, E8, E9 and EB, is the start of a record or the end of the show.
//   file     the whole file, as fsq_load's
//   report   as fsq_load's; its length is the image's. Of 25 the record is the index of the first whose target is neither, the value the target, and the length the
//            index of the record that the target falls into, 4294967295 where it falls into none
//   answer   0, or the refusal's number: those of fsq_load but 9, in its order; then 25
pub fn fsq_check(file: &[u8], report: &mut [u8]) -> u8
    ensures value { result ≡ (response_checked (checked file.now)).number }
    ensures report_after { report.new ≡ report_after (response_checked (checked file.now)) report.old }
{
    let answer = show_check::check(file);
    let response = response_checked(answer);
    write_report(response, report);
    response.number
}
