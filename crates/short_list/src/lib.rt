// Every string of one or two bytes that reads, whole, as one instruction at offset 0, as the text that `fsqshort` prints (REFERENCE 13).
#![tactic(auto)]

ghost use Rattle.std.specs.Prelude.{◌≡◌, [], ◌∷◌, ◌++◌, ◌<◌, ◌≤◌, length, drop};
ghost use Rattle.mrc_compiler.specs.Choose.{pick};
ghost use Rattle.text_line.specs.Steps.{empty_line, appended};
ghost use Rattle.short_list.specs.Short.{string_at, strings, reads_whole, short_strings};
ghost use Rattle.short_list.specs.Text.{line_of, lines_of, count_line, written, slice_after};
ghost use Rattle.short_list.specs.Steps.{whole_in};

use reader::Reading;
use text_line::{Line, TooShort, empty_line, push, push_decimal, push_hex_byte, write_line};
use x86::ReadError;

fn is_whole(decoded: Result<Reading, ReadError>, length: usize) -> bool
    ensures { result ≡ whole_in decoded length }
{
    match decoded {
        Ok(reading) => reading.length == length,
        Err(_) => false,
    }
}

fn one_reads(a: u8) -> bool
    ensures { result ≡ reads_whole (a ∷ []) }
{
    is_whole(reader::read(&[a], 0), 1)
}

fn two_read(a: u8, b: u8) -> bool
    ensures { result ≡ reads_whole (a ∷ b ∷ []) }
{
    is_whole(reader::read(&[a, b], 0), 2)
}

// Does string k read, to its last byte?
fn string_reads(k: usize) -> bool
    requires { k < strings }
    ensures { result ≡ reads_whole (string_at k) }
{
    if k < 256 {
        one_reads(k as u8)
    } else {
        let n = k - 256;
        two_read((n / 256) as u8, (n % 256) as u8)
    }
}

// The line of string k.
fn line_of(k: usize) -> Line
    requires { k < strings }
    ensures { result ≡ appended empty_line (line_of (string_at k)) }
{
    if k < 256 {
        let one = push_hex_byte(empty_line(), k as u8);
        push(one, b'\n')
    } else {
        let n = k - 256;
        let first = push_hex_byte(empty_line(), (n / 256) as u8);
        let second = push_hex_byte(first, (n % 256) as u8);
        push(second, b'\n')
    }
}

// Writes the line of string k to the front of out, and answers how many bytes it wrote.
fn write_string(k: usize, out: &mut [u8]) -> usize
    requires { (k < strings) × (length (line_of (string_at k)) ≤ length out.old) }
    ensures value { result ≡ length (line_of (string_at k)) }
    ensures out_after { out.new ≡ line_of (string_at k) ++ drop (length (line_of (string_at k))) out.old }
{
    write_line(line_of(k), out)
}

// How many lines were written, and where the last one ended.
#[derive(Clone, Copy, Debug, PartialEq, Eq)]
struct Lines {
    count: usize,
    end: usize,
}

// The lines of all strings, each into the part of out that starts where the last one ended.
fn write_lines(out: &mut [u8]) -> Lines
    requires { length (lines_of short_strings) ≤ length out.old }
    ensures count_value { result.count ≡ length short_strings }
    ensures end_value { result.end ≡ length (lines_of short_strings) }
    ensures out_after { out.new ≡ lines_of short_strings ++ drop (length (lines_of short_strings)) out.old }
{
    let mut count = 0;
    let mut end = 0;
    for k in 0..65792 {
        if string_reads(k) {
            end += write_string(k, &mut out[end..]);
            count += 1;
        }
    }
    Lines { count, end }
}

fn count_line(n: usize) -> Line
    ensures { result ≡ appended empty_line (count_line n) }
{
    let number = push_decimal(empty_line(), n);
    push(number, b'\n')
}

// The length of the text.
pub const SHORT_LENGTH: usize = 84443;

// Writes the text to the front of out, and answers its length. A shorter slice stays as it was.
pub fn write_short(out: &mut [u8]) -> Result<usize, TooShort>
    ensures value { result ≡ written (length out.old) }
    ensures out_after { out.new ≡ slice_after out.old }
{
    if out.len() < SHORT_LENGTH {
        return Err(TooShort);
    }
    let lines = write_lines(out);
    let last = count_line(lines.count);
    let m = write_line(last, &mut out[lines.end..]);
    Ok(lines.end + m)
}
