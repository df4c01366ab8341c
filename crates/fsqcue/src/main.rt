// Compiles the cues on standard input to the image of a field module on standard output (REFERENCE 14).
#![tactic(auto)]

use cue_compile::CueError;
use input::Failure;
use std::io;

// Says a refusal on standard error.
fn print_refused(rt: &impl Eprint, error: CueError) {
    let _ = eprintln!(rt; "refused {}", error.number());
}

// Prints the image of some cues, by way of image, or says the refusal.
fn print_image(rt: &(impl Print + Eprint), cues: &[u8], image: &mut [u8]) -> io::Result<()> {
    match cue_compile::compile(cues, image) {
        Ok(n) => rt.write_all(&image[..n]),
        Err(error) => {
            print_refused(rt, error);
            Ok(())
        }
    }
}

// The buffer is longer than 200 cues, so that of an input that does not fit the length is still wrong; the image is the longest.
fn compile_input(rt: &(impl Input + Print + Eprint)) -> Result<(), Failure> {
    let mut space = [0; 65536];
    let n = input::read_input(&mut rt.reader(), &mut space).map_err(Failure::Input)?;
    let mut image = [0; 1801];
    print_image(rt, &space[..n], &mut image).map_err(Failure::Output)
}

fn main(rt: HostRuntime) {
    if !input::called_alone(
        &rt.stderr(),
        input::word_count(&rt),
        b"usage: fsqcue < CUES > IMAGE\n",
    ) {
        return;
    }
    if let Err(failure) = compile_input(&rt) {
        let _ = eprintln!(rt; "{failure}");
    }
}
