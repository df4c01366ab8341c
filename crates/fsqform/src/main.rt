// Lists a show file with the form of each record, or the question that refuses it: reads it from standard input and prints its text (REFERENCE 9).
#![tactic(auto)]

use input::Failure;
use std::io;

// Prints the text of a show file with forms, by way of out.
fn print_forms(rt: &impl Print, file: &[u8], out: &mut [u8]) -> io::Result<()> {
    match show_text::write_forms(file, out) {
        Ok(n) => rt.write_all(&out[..n]),
        Err(_) => Err(io::Error::other("the text is too long")),
    }
}

// The buffer is longer than any show that is printed, so that of an input that does not fit the count or the length is still wrong.
fn list_input(rt: &(impl Input + Print)) -> Result<(), Failure> {
    let mut space = [0; 65536];
    let n = input::read_input(&mut rt.reader(), &mut space).map_err(Failure::Input)?;
    let mut out = [0; 96032];
    print_forms(rt, &space[..n], &mut out).map_err(Failure::Output)
}

fn main(rt: HostRuntime) {
    if !input::called_alone(
        &rt.stderr(),
        input::word_count(&rt),
        b"usage: fsqform < SHOW.fsq\n",
    ) {
        return;
    }
    if let Err(failure) = list_input(&rt) {
        let _ = eprintln!(rt; "{failure}");
    }
}
