// A show file, loaded.
ghost use Rattle.std.specs.Prelude.{◌≡◌, length};
ghost use Rattle.show_load.specs.Loading.{loaded, image_after};
ghost use Rattle.foreign_report.specs.Crossing.{report_after};
ghost use Rattle.foreign.specs.LoadShow.{response_loaded};

// Loads a show file.
//   file     the whole file, mark and header first
//   image    gets the bytes of the records at its front; its later bytes stay, and a refusal leaves it as it was
//   report   as fsq_encode's; its length is the image's, its record the index (the first is 0) of the record that a refusal is of, 4294967295 for 0 and 12 to 14
//   answer   0, or the refusal's number: 12 to 14 of the file; 15 of the first record with an unknown code; 1 to 8 or 23 of the first record that the encoder
//            refuses; 9 of the first record that ends behind the image's end
// In C: uint8_t fsq_load(const uint8_t *file, size_t file_len, uint8_t *image, size_t image_len, uint8_t *report, size_t report_len);
#[unsafe(no_mangle)]
pub extern "C" fn fsq_load(file: &[u8], image: &mut [u8], report: &mut [u8]) -> u8
    ensures value { result ≡ (response_loaded (loaded file.now (length image.old))).number }
    ensures image_after { image.new ≡ image_after file.now image.old }
    ensures report_after { report.new ≡ report_after (response_loaded (loaded file.now (length image.old))) report.old }
{
    foreign::load::fsq_load(file, image, report)
}
