// How a program of ours is called, and what it reads and prints: no argument, its input on standard input, and its answer on standard output.
#![tactic(auto)]

ghost use Rattle.std.specs.Prelude.{◌≡◌, ◌<◌, ◌≤◌, leb, length, take, IfOk, IsErr};
ghost use Rattle.std.specs.Io.{ReadsAtMost};
ghost use Rattle.std.specs.Io.KnownBytes.{Consumes, IsAtEnd};

use std::env::{Env, FillError};
use std::io::Read;
use std::{fmt, io};

// What a program could not do, and why.
#[derive(Debug, Drop)]
pub enum Failure {
    Input(io::Error),
    Output(io::Error),
}

impl fmt::Display for Failure {
    fn fmt<W: fmt::Write>(&self, f: &mut fmt::Formatter<W>) -> fmt::Result {
        match self {
            Failure::Input(error) => write!(f, "standard input: {error}"),
            Failure::Output(error) => write!(f, "standard output: {error}"),
        }
    }
}

// With how many words the program was started, its own name among them.
// No clause says which number: std says of no environment what it holds.
pub fn word_count(rt: &impl Env) -> usize {
    for i in 0..usize::MAX {
        if let Err(FillError::NotPresent) = rt.arg(i, &mut []) {
            return i;
        }
    }
    usize::MAX
}

// Is a program that was started with so many words, its own name among them, called without an argument? Where it is not, says how it is called, on errors, which is standard error.
pub fn called_alone(errors: &impl Print, words: usize, usage: &[u8]) -> bool
    ensures { result ≡ leb words 1 }
{
    if words <= 1 {
        return true;
    }
    let _ = errors.write_all(usage);
    false
}

// Prints the text that stands at the front of out, where it has been written there; else the answer is an error. What an output holds then, std says of none.
pub fn print_front<E: Drop>(
    rt: &impl Print,
    written: Result<usize, E>,
    out: &[u8],
) -> io::Result<()>
    requires { IfOk written (λ n. n ≤ length out.now) }
    ensures { IsErr written → IsErr result }
{
    match written {
        Ok(n) => rt.write_all(&out[..n]),
        Err(_) => Err(io::Error::other("the text is too long")),
    }
}

// Reads until buf is full or the input ends, and answers how many bytes. Where it is known what the reader gives, they are that, from its front, and all of it where buf has room left.
// A failed read is answered as the reader's own error, and leaves buf its length; no other error comes.
pub fn read_input<R: Read>(reader: &mut R, buf: &mut [u8]) -> io::Result<usize>
    ensures bound { ReadsAtMost result buf.new }
    ensures len_unchanged { length buf.new ≡ length buf.old }
    ensures bytes { IfOk result (λ n. Consumes (R.remaining reader.old) (R.remaining reader.new) (take n buf.new)) }
    ensures whole { IfOk result (λ n. n < length buf.new → IsAtEnd (R.remaining reader.new)) }
{
    // The count stays by hand: the promise of `read_input` is on the lent slice, and std's readers that end at the input's end fill a Vec.
    let mut at = 0;
    while at < buf.len() {
        let n = reader.read(&mut buf[at..])?;
        if n == 0 {
            return Ok(at);
        }
        at += n;
    }
    Ok(at)
}
