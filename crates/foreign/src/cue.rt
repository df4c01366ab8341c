// Cues, compiled.
ghost use Rattle.std.specs.Prelude.{◌≡◌, length};
ghost use Rattle.cue_compile.specs.Compiling.{compiled, image_after};
ghost use Rattle.foreign_report.specs.Crossing.{report_after};
ghost use Rattle.foreign.specs.CompileCues.{response_compiled};

use cue_compile::CueError;
use foreign_report::{Response, response_alone, response_length, write_report};

// An answer of the cue compiler.
fn response_compiled(answer: Result<usize, CueError>) -> Response
    ensures { result ≡ response_compiled answer }
{
    match answer {
        Ok(n) => response_length(n),
        Err(error) => response_alone(error.number()),
    }
}

// Compiles cues to the image of a field module.
//   cues     four bytes each: delay (u16), port, mask; at most 200
//   image    gets the program at its front, 9 bytes a cue and 1; its later bytes stay, and a refusal leaves it as it was
//   report   as fsq_encode's; its length is the program's
//   answer   0; 19 where the length is no multiple of four or there are more than 200 cues; 20 where a delay is 0; 9 where the image is too short
pub fn fsq_cue(cues: &[u8], image: &mut [u8], report: &mut [u8]) -> u8
    ensures value { result ≡ (response_compiled (compiled cues.now (length image.old))).number }
    ensures image_after { image.new ≡ image_after cues.now image.old }
    ensures report_after { report.new ≡ report_after (response_compiled (compiled cues.now (length image.old))) report.old }
{
    let answer = cue_compile::compile(cues, image);
    let response = response_compiled(answer);
    write_report(response, report);
    response.number
}
