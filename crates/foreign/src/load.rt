// A show file, loaded.
ghost use Rattle.std.specs.Prelude.{◌≡◌, length};
ghost use Rattle.show_load.specs.Loading.{loaded, image_after};
ghost use Rattle.foreign_report.specs.Crossing.{report_after};
ghost use Rattle.foreign.specs.LoadShow.{response_load_error, response_loaded};

use foreign_report::{
    Response, of_record, response_alone, response_length, response_refusal, write_report,
};
use show_file::{Header, LoadError};

// A refusal of the loader.
pub fn response_load_error(error: LoadError) -> Response
    ensures { result ≡ response_load_error error }
{
    match error {
        LoadError::NoMark => response_alone(12),
        LoadError::WrongVersion => response_alone(13),
        LoadError::WrongLength => response_alone(14),
        LoadError::UnknownCode(k) => of_record(response_alone(15), k),
        LoadError::Record(k, e) => of_record(response_refusal(e), k),
    }
}

// An answer of the loader.
fn response_loaded(answer: Result<(Header, usize), LoadError>) -> Response
    ensures { result ≡ response_loaded answer }
{
    match answer {
        Ok((_, n)) => response_length(n),
        Err(error) => response_load_error(error),
    }
}

// Loads a show file.
//   file     the whole file, mark and header first
//   image    gets the bytes of the records at its front; its later bytes stay, and a refusal leaves it as it was
//   report   as fsq_encode's; its length is the image's, its record the index (the first is 0) of the record that a refusal is of, 4294967295 for 0 and 12 to 14
//   answer   0, or the refusal's number: 12 to 14 of the file; 15 of the first record with an unknown code; 1 to 8 or 23 of the first record that the encoder
//            refuses; 9 of the first record that ends behind the image's end
pub fn fsq_load(file: &[u8], image: &mut [u8], report: &mut [u8]) -> u8
    ensures value { result ≡ (response_loaded (loaded file.now (length image.old))).number }
    ensures image_after { image.new ≡ image_after file.now image.old }
    ensures report_after { report.new ≡ report_after (response_loaded (loaded file.now (length image.old))) report.old }
{
    let answer = show_load::load(file, image);
    let response = response_loaded(answer);
    write_report(response, report);
    response.number
}
