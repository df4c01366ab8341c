// The report of 28 bytes that stands beside an answer's number, and the fields that cross.
#![tactic(auto)]

ghost use Rattle.std.specs.Prelude.{◌≡◌, ◌+◌, ◌≤◌, length};
ghost use Rattle.std.proofs.lemmas.List.Edits.{sets};
ghost use Rattle.foreign_report.specs.Crossing.{u32_bytes, three_bytes, response_length, response_value, response_alone, response_span, response_refusal, response_encoded, of_record, report_after};

use mrc_compiler::ast::Span;
use mrc_compiler::encoder::EncodeError;

// The record of a report that names none.
pub const NO_RECORD: u32 = 4294967295;

// What an answer tells: its number, 0 where nothing is refused, and the report's fields.
#[derive(Clone, Copy, Debug, PartialEq, Eq)]
pub struct Response {
    pub number: u8,
    pub length: u32,
    pub span: Span,
    pub value: i32,
    pub low: i32,
    pub high: i32,

    // The index of the record that a loader's refusal names, or NO_RECORD.
    pub record: u32,
}

// Number 0, and a report with nothing in it.
const NOTHING: Response = Response {
    number: 0,
    length: 0,
    span: Span { start: 0, end: 0 },
    value: 0,
    low: 0,
    high: 0,
    record: NO_RECORD,
};

// A number with no report.
pub fn response_alone(number: u8) -> Response
    ensures { result ≡ response_alone number }
{
    Response { number, ..NOTHING }
}

// 0, with a length.
pub fn response_length(n: usize) -> Response
    ensures { result ≡ response_length n }
{
    Response {
        length: (n % 4294967296) as u32,
        ..NOTHING
    }
}

// 0, with a value.
pub fn response_value(value: i32) -> Response
    ensures { result ≡ response_value value }
{
    Response { value, ..NOTHING }
}

// A refusal of the encoder.
pub fn response_refusal(e: EncodeError) -> Response
    ensures { result ≡ response_refusal e }
{
    match e {
        EncodeError::InvalidOperands(span) => response_span(1, span),
        EncodeError::OperandSizeNotSpecified(span) => response_span(2, span),
        EncodeError::OperandSizesDoNotMatch(span) => response_span(3, span),
        EncodeError::InvalidOperandSize(span) => response_span(4, span),
        EncodeError::ImmediateOutOfRange(span, value, low, high) => Response {
            number: 5,
            span,
            value,
            low,
            high,
            ..NOTHING
        },
        EncodeError::RelativeJumpOutOfRange(span, _, _, distance) => Response {
            number: 6,
            span,
            value: distance,
            ..NOTHING
        },
        EncodeError::NotSupported(span) => response_span(7, span),
        EncodeError::NotWellFormed(span) => response_span(8, span),
        EncodeError::InvalidRepeat(span) => response_span(23, span),
        EncodeError::SliceTooShort(span) => response_span(9, span),
    }
}

// A refusal with its span alone.
fn response_span(number: u8, span: Span) -> Response
    ensures { result ≡ response_span number span }
{
    Response {
        number,
        span,
        ..NOTHING
    }
}

// An answer of the encoder.
pub fn response_encoded(encoded: Result<usize, EncodeError>) -> Response
    ensures { result ≡ response_encoded encoded }
{
    match encoded {
        Ok(n) => response_length(n),
        Err(e) => response_refusal(e),
    }
}

// A response about record k of a file.
pub fn of_record(response: Response, k: usize) -> Response
    ensures { result ≡ of_record response k }
{
    Response {
        record: (k % 4294967296) as u32,
        ..response
    }
}

// Writes a u32 at a place, low byte first.
pub fn put_u32(report: &mut [u8], at: usize, n: u32)
    requires { at + 4 ≤ length report.old }
    ensures { report.new ≡ sets report.old at (u32_bytes n) }
{
    report[at..at + 4].copy_from_slice(&n.to_le_bytes());
}

// Writes three of them.
pub fn put_three(report: &mut [u8], at: usize, a: u32, b: u32, c: u32)
    requires { at + 12 ≤ length report.old }
    ensures { report.new ≡ sets report.old at (three_bytes a b c) }
{
    put_u32(report, at, a);
    put_u32(report, at + 4, b);
    put_u32(report, at + 8, c)
}

// Writes the report's fields to its front. A report of less than 28 bytes stays as it was.
pub fn write_report(response: Response, report: &mut [u8])
    ensures { report.new ≡ report_after response report.old }
{
    if report.len() < 28 {
        return;
    }
    let span = response.span;
    let value = base_values::bits_of(response.value);
    let low = base_values::bits_of(response.low);
    let high = base_values::bits_of(response.high);
    put_three(report, 0, response.length, span.start, span.end);
    put_three(report, 12, value, low, high);
    put_u32(report, 24, response.record)
}
