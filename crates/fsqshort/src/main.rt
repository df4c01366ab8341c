// Prints every string of one or two bytes that reads, whole, as one instruction at offset 0, and their number (REFERENCE 13).
#![tactic(auto)]

use input::Failure;
use short_list::SHORT_LENGTH;
use std::io;

// Prints the text, by way of out.
fn print_short(rt: &impl Print, out: &mut [u8]) -> io::Result<()> {
    match short_list::write_short(out) {
        Ok(n) => rt.write_all(&out[..n]),
        Err(_) => Err(io::Error::other("the text is too long")),
    }
}

fn main(rt: HostRuntime) {
    if !input::called_alone(&rt.stderr(), input::word_count(&rt), b"usage: fsqshort\n") {
        return;
    }
    let mut out = [0; SHORT_LENGTH];
    if let Err(failure) = print_short(&rt, &mut out).map_err(Failure::Output) {
        let _ = eprintln!(rt; "{failure}");
    }
}
