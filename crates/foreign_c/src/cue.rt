// Cues, compiled.
ghost use Rattle.std.specs.Prelude.{◌≡◌, length};
ghost use Rattle.cue_compile.specs.Compiling.{compiled, image_after};
ghost use Rattle.foreign_report.specs.Crossing.{report_after};
ghost use Rattle.foreign.specs.CompileCues.{response_compiled};

// Compiles cues to the image of a field module.
//   cues     four bytes each: delay (u16), port, mask; at most 200
//   image    gets the program at its front, 9 bytes a cue and 1; its later bytes stay, and a refusal leaves it as it was
//   report   as fsq_encode's; its length is the program's
//   answer   0; 19 where the length is no multiple of four or there are more than 200 cues; 20 where a delay is 0; 9 where the image is too short
// In C: uint8_t fsq_cue(const uint8_t *cues, size_t cues_len, uint8_t *image, size_t image_len, uint8_t *report, size_t report_len);
#[unsafe(no_mangle)]
pub extern "C" fn fsq_cue(cues: &[u8], image: &mut [u8], report: &mut [u8]) -> u8
    ensures value { result ≡ (response_compiled (compiled cues.now (length image.old))).number }
    ensures image_after { image.new ≡ image_after cues.now image.old }
    ensures report_after { report.new ≡ report_after (response_compiled (compiled cues.now (length image.old))) report.old }
{
    foreign::cue::fsq_cue(cues, image, report)
}
