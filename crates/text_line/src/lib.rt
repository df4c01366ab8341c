// A line of text, filled byte by byte: words, hexadecimal and decimal numbers.
#![tactic(auto)]

ghost use Rattle.std.specs.Prelude.{◌≡◌, ◌++◌, ◌≤◌, length, take, drop};
ghost use Rattle.text_line.specs.Numbers.{hex_digit, hex_byte, hex_word, digit_from, decimal, long_decimal, sign, signed, long_signed};
ghost use Rattle.text_line.specs.Steps.{line_length, empty_line, pushed, appended};

/// The lent slice is too short for the text, of which nothing was written.
#[derive(Clone, Copy, Debug, PartialEq, Eq)]
pub struct TooShort;

// A line of text: bytes and how many of them are there.
#[derive(Clone, Copy, Debug, PartialEq, Eq)]
pub struct Line {
    pub bytes: [u8; 96],
    pub len: usize,
}

pub fn empty_line() -> Line
    ensures { result ≡ empty_line }
{
    Line {
        bytes: [0; 96],
        len: 0,
    }
}

// One byte more; a full line stays as it is.
pub fn push(mut line: Line, byte: u8) -> Line
    ensures { result ≡ pushed line byte }
{
    let at = line.len;
    if at < 96 {
        line.bytes[at] = byte;
        line.len = at + 1;
    }
    line
}

pub fn push_text(line: Line, text: &[u8]) -> Line
    ensures { result ≡ appended line text.now }
{
    let mut so_far = line;
    for &byte in text {
        so_far = push(so_far, byte);
    }
    so_far
}

// ---- numbers
fn hex_digit(d: u8) -> u8
    requires { d ≤ 15 }
    ensures { result ≡ hex_digit d }
{
    if d < 10 { 0x30 + d } else { 0x37 + d }
}

#[tactic(auto, unfolding(crate::specs::Numbers::hex_byte))]
pub fn push_hex_byte(line: Line, b: u8) -> Line
    ensures { result ≡ appended line (hex_byte b) }
{
    let first = push(line, hex_digit(b / 16));
    push(first, hex_digit(b % 16))
}

pub fn push_hex_word(line: Line, w: u16) -> Line
    ensures { result ≡ appended line (hex_word w) }
{
    let first = push_hex_byte(line, (w / 256) as u8);
    push_hex_byte(first, (w % 256) as u8)
}

// The digit of a place where the number reaches that place.
#[tactic(auto, unfolding(crate::specs::Numbers::digit_from))]
fn push_digit(line: Line, place: usize, n: usize) -> Line
    requires { 10 ≤ place }
    ensures { result ≡ appended line (digit_from place n) }
{
    if place <= n {
        push(line, 0x30 + (n / place % 10) as u8)
    } else {
        line
    }
}

pub fn push_decimal(line: Line, n: usize) -> Line
    ensures { result ≡ appended line (decimal n) }
{
    let first = push_digit(line, 10000, n);
    let second = push_digit(first, 1000, n);
    let third = push_digit(second, 100, n);
    let fourth = push_digit(third, 10, n);
    push(fourth, 0x30 + (n % 10) as u8)
}

// A number of up to ten digits.
pub fn push_long(line: Line, n: usize) -> Line
    ensures { result ≡ appended line (long_decimal n) }
{
    let first = push_digit(line, 1000000000, n);
    let second = push_digit(first, 100000000, n);
    let third = push_digit(second, 10000000, n);
    let fourth = push_digit(third, 1000000, n);
    let fifth = push_digit(fourth, 100000, n);
    push_decimal(fifth, n)
}

// A minus before what is below 0.
#[tactic(auto, unfolding(crate::specs::Numbers::sign))]
fn push_sign(line: Line, value: i32) -> Line
    ensures { result ≡ appended line (sign value) }
{
    if value < 0 { push(line, 0x2D) } else { line }
}

// A number of up to five digits with its sign. The two of these are a line each: a parameter for who writes the digits would be longer.
pub fn push_signed(line: Line, value: i32) -> Line
    ensures { result ≡ appended line (signed value) }
{
    push_decimal(
        push_sign(line, value),
        base_values::magnitude(value) as usize,
    )
}

// Any i32 with its sign.
pub fn push_long_signed(line: Line, value: i32) -> Line
    ensures { result ≡ appended line (long_signed value) }
{
    push_long(
        push_sign(line, value),
        base_values::magnitude(value) as usize,
    )
}

// ---- the slice that it goes to
// Writes the line to the front of out.
pub fn write_line(line: Line, out: &mut [u8]) -> usize
    requires { (line.len ≤ line_length) × (line.len ≤ length out.old) }
    ensures value { result ≡ line.len }
    ensures out_after { out.new ≡ take line.len line.bytes ++ drop line.len out.old }
{
    let n = line.len;
    out[..n].copy_from_slice(&line.bytes[..n]);
    n
}
