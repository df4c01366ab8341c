// The text that `fsqrun` prints of a run: a line for each pair of the log and the count, or the refusal (REFERENCE 15).
#![tactic(auto)]

ghost use Rattle.std.specs.Prelude.{◌≡◌, ◌++◌, ◌*◌, ◌≤◌, length, take, drop};
ghost use Rattle.text_line.specs.Steps.{empty_line, appended};
ghost use Rattle.desk_run.specs.Running.{number_of};
ghost use Rattle.desk_text.specs.Budget.{budget_of};
ghost use Rattle.desk_text.specs.Lines.{pair_line, pairs_text, halted_line, refused_line, written, out_after, logged_after};

use desk_run::RunError;
use text_line::{
    Line, TooShort, empty_line, push, push_decimal, push_hex_byte, push_long, push_text, write_line,
};

fn pair_line(port: u8, mask: u8) -> Line
    ensures { result ≡ appended empty_line (pair_line port mask) }
{
    let first = push_hex_byte(empty_line(), port);
    let behind = push(first, 0x20);
    let second = push_hex_byte(behind, mask);
    push(second, 0x0A)
}

fn halted_line(count: u32) -> Line
    ensures { result ≡ appended empty_line (halted_line count) }
{
    let word = push_text(empty_line(), b"halted ");
    let number = push_long(word, count as usize);
    push(number, 0x0A)
}

fn refused_line(error: RunError) -> Line
    ensures { result ≡ appended empty_line (refused_line (number_of error)) }
{
    let word = push_text(empty_line(), b"refused ");
    let number = push_decimal(word, error.number() as usize);
    push(number, 0x0A)
}

// The pairs in the first n bytes of a log, each into the part of out that starts where the last one ended.
fn write_pairs(log: &[u8], n: usize, out: &mut [u8]) -> usize
    requires { (n ≤ length log.now) × (n ≤ 65536) × (3 * n ≤ length out.old) }
    ensures value { result ≡ length (pairs_text (take n log.now)) }
    ensures out_after { out.new ≡ pairs_text (take n log.now) ++ drop (length (pairs_text (take n log.now))) out.old }
{
    let pairs = &log[..n];
    let mut end = 0;
    for pair in pairs.chunks_exact(2) {
        end += write_line(pair_line(pair[0], pair[1]), &mut out[end..]);
    }
    end
}

// Runs an image and writes the text of the run to the front of out; the log is left as the run leaves it. A log of more than 32,768 pairs, or a slice for the text
// that is too short for it, is not taken, and both stay as they were.
pub fn write_run(
    image: &[u8],
    budget: u32,
    log: &mut [u8],
    out: &mut [u8],
) -> Result<usize, TooShort>
    ensures value { result ≡ written image.now budget (length log.old) (length out.old) }
    ensures log_after { log.new ≡ logged_after image.now budget log.old (length out.old) }
    ensures out_after { out.new ≡ out_after image.now budget (length log.old) out.old }
{
    let room = log.len();
    if 65536 < room {
        return Err(TooShort);
    }
    if out.len() < 3 * room + 18 {
        return Err(TooShort);
    }
    match desk_run::run(image, budget, log) {
        Err(error) => Ok(write_line(refused_line(error), out)),
        Ok(halted) => {
            let end = write_pairs(log, halted.log_length, out);
            let last = write_line(halted_line(halted.count), &mut out[end..]);
            Ok(end + last)
        }
    }
}

// The budget that a text in decimal gives.
pub fn budget_of(text: &[u8]) -> Option<u32>
    ensures { result ≡ budget_of text.now }
{
    if text.is_empty() {
        return None;
    }
    let mut value: u32 = 0;
    for &byte in text {
        if !byte.is_ascii_digit() {
            return None;
        }
        let digit = byte - b'0';
        value = value.checked_mul(10)?.checked_add(digit as u32)?;
    }
    Some(value)
}
