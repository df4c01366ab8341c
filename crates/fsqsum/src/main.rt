// Answers each line of standard input, a sum, with a line: its value, or the refusal (REFERENCE 12).
#![tactic(auto)]

ghost use Rattle.std.specs.Prelude.{◌≡◌, ◌≤◌, length, IfOk};

use input::Failure;
use std::io;
use std::io::Read;

// What is known of the line that is being read.
// A buffer with its length beside it, in place of a Vec and a BufReader: the memory is fixed, so that the program cannot run out of it, and it ends where a read first finds the end of its input.
#[derive(Clone, Copy, Debug, Default, PartialEq, Eq)]
struct State {
    // So many of its bytes are kept.
    len: usize,

    // It has more.
    is_too_long: bool,

    // The lines before it.
    lines: u64,
}

// Prints the answer to a text, by way of out.
fn print_answer(rt: &impl Print, text: &[u8], out: &mut [u8]) -> io::Result<()> {
    let written = sum_text::write_answer(text, out);
    input::print_front(rt, written, out)
}

// Says of a line that it is too long, in its place and, with its number, on standard error.
fn print_too_long(rt: &(impl Print + Eprint), number: u64) -> io::Result<()> {
    let _ = eprintln!(rt; "line {number} is too long");
    rt.println("too long")
}

// The line ends: it is answered, and the next one begins.
fn end_line(rt: &(impl Print + Eprint), line: &[u8], state: State) -> io::Result<State>
    requires { state.len ≤ length line.now }
    ensures { IfOk result (λ s. s.len ≡ 0) }
{
    let number = state.lines.wrapping_add(1);
    if state.is_too_long {
        print_too_long(rt, number)?;
    } else {
        let mut out = [0; 16];
        print_answer(rt, &line[..state.len], &mut out)?;
    }
    Ok(State {
        len: 0,
        is_too_long: false,
        lines: number,
    })
}

// A byte of the input: it ends the line, or goes to its end where there is room.
fn take_byte(
    rt: &(impl Print + Eprint),
    line: &mut [u8],
    state: State,
    byte: u8,
) -> io::Result<State>
    requires { state.len ≤ length line.old }
    ensures len_in_bounds { IfOk result (λ s. s.len ≤ length line.new) }
    ensures line_len_unchanged { length line.new ≡ length line.old }
{
    if byte == b'\n' {
        return end_line(rt, line, state);
    }
    let at = state.len;
    let mut next = state;
    if at < line.len() {
        line[at] = byte;
        next.len = at + 1;
    } else {
        next.is_too_long = true;
    }
    Ok(next)
}

// Bytes of the input, until an answer could not be written.
fn take_bytes(
    rt: &(impl Print + Eprint),
    line: &mut [u8],
    state: State,
    bytes: &[u8],
) -> io::Result<State>
    requires { state.len ≤ length line.old }
    ensures len_in_bounds { IfOk result (λ s. s.len ≤ length line.new) }
    ensures line_len_unchanged { length line.new ≡ length line.old }
{
    let mut so_far = state;
    for byte in bytes {
        so_far = take_byte(rt, line, so_far, *byte)?;
    }
    Ok(so_far)
}

// The input to its end; a last line without a line feed counts.
fn answer_lines(
    rt: &(impl Input + Print + Eprint),
    line: &mut [u8],
    space: &mut [u8],
) -> Result<(), Failure> {
    let mut state = State::default();
    let mut reader = rt.reader();
    for _ in 0..u64::MAX {
        let n = reader.read(space).map_err(Failure::Input)?;
        if n == 0 {
            if 0 < state.len {
                end_line(rt, line, state).map_err(Failure::Output)?;
            }
            break;
        }
        state = take_bytes(rt, line, state, &space[..n]).map_err(Failure::Output)?;
    }
    Ok(())
}

fn main(rt: HostRuntime) {
    if !input::called_alone(
        &rt.stderr(),
        input::word_count(&rt),
        b"usage: fsqsum < TEXTS\n",
    ) {
        return;
    }
    let mut line = [0; 65536];
    let mut space = [0; 65536];
    if let Err(failure) = answer_lines(&rt, &mut line, &mut space) {
        let _ = eprintln!(rt; "{failure}");
    }
}
