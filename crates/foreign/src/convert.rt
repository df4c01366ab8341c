// A show from a 186 module, converted.
ghost use Rattle.std.specs.Prelude.{◌≡◌, length};
ghost use Rattle.convert_spec.specs.Converting.{converted, slice_after};
ghost use Rattle.foreign_report.specs.Crossing.{report_after};
ghost use Rattle.foreign.specs.ConvertShow.{response_convert_error, response_converted};

use crate::load::response_load_error;
use convert_spec::ConvertError;
use foreign_report::{Response, of_record, response_alone, response_length, write_report};

// A refusal of the converter.
fn response_convert_error(error: ConvertError) -> Response
    ensures { result ≡ response_convert_error error }
{
    match error {
        ConvertError::Load(e) => response_load_error(e),
        ConvertError::ShiftCountOutOfRange(k) => of_record(response_alone(24), k),
        ConvertError::NoRecordAtTarget(k) => of_record(response_alone(25), k),
        ConvertError::SliceTooShort => response_alone(9),
    }
}

// An answer of the converter.
fn response_converted(answer: Result<usize, ConvertError>) -> Response
    ensures { result ≡ response_converted answer }
{
    match answer {
        Ok(n) => response_length(n),
        Err(error) => response_convert_error(error),
    }
}

// Converts a show from a 186 module: each shift by 2 to 31 becomes so many shifts by 1, and the branches go where they went.
//   file     the whole file, of version 1
//   out      gets the written file at its front; its later bytes stay, and a refusal leaves it as it was
//   report   as fsq_load's; its length is the written file's, its record the index (the first is 0) of the record that a refusal is of, 4294967295 for 0, 9 and 12 to 14
//   answer   0, or the refusal's number: 12 to 14 of the file; 15 of the first record with an unknown code; 24 of the first with a shift count outside 1 to 31; 1 to 8
//            of the first that the encoder refuses where it stood; 25 of the first branch to no record's start and not to the end; then those of the written file, 14
//            for more than 1,000 records, and 1 to 8 with the record of the written file; last 9, where out is too short
pub fn fsq_convert(file: &[u8], out: &mut [u8], report: &mut [u8]) -> u8
    ensures value { result ≡ (response_converted (converted file.now (length out.old))).number }
    ensures out_after { out.new ≡ slice_after file.now out.old }
    ensures report_after { report.new ≡ report_after (response_converted (converted file.now (length out.old))) report.old }
{
    let answer = show_convert::convert(file, out);
    let response = response_converted(answer);
    write_report(response, report);
    response.number
}
