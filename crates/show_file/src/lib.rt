// The show file: its header and records, and the questions about the file itself (REFERENCE 8).
#![tactic(auto)]

ghost use Rattle.std.specs.Prelude.{◌≡◌, ◌+◌, ◌*◌, ◌<◌, ◌≤◌, true, length, unwrap_or, IfSome};
ghost use Rattle.mrc_compiler.specs.Refusals.{report_of};
ghost use Rattle.show_record.specs.Record.{is_record};
ghost use Rattle.show_file.specs.Refusals.{number_of};
ghost use Rattle.show_file.specs.Show.{header_length, u16_at, header, has_mark, versions, counts_in, each_in, record_bytes, is_count, headed, opened, record_place, record_at, insn_at, first_unknown, most_records};

use mrc_compiler::encoder::{EncodeError, InstructionData};

#[derive(Clone, Copy, Debug, PartialEq, Eq)]
pub struct Header {
    pub version: u16,
    pub origin: u16,
    pub count: u16,
}

#[derive(Clone, Copy, Debug, PartialEq, Eq)]
pub enum LoadError {
    // 12.
    NoMark,

    // 13.
    WrongVersion,

    // 14: the header is cut short, the count none of its version or too high, or the file not of its count's length.
    WrongLength,

    // 15, with the first such record.
    UnknownCode(usize),

    // The encoder's refusal of this record; 9 for the first that the image does not hold.
    Record(usize, EncodeError),
}

// Document 01's number of the encoder's refusal.
fn number_of(error: EncodeError) -> u8
    ensures { result ≡ (report_of error).number }
{
    match error {
        EncodeError::InvalidOperands(_) => 1,
        EncodeError::OperandSizeNotSpecified(_) => 2,
        EncodeError::OperandSizesDoNotMatch(_) => 3,
        EncodeError::InvalidOperandSize(_) => 4,
        EncodeError::ImmediateOutOfRange(_, _, _, _) => 5,
        EncodeError::RelativeJumpOutOfRange(_, _, _, _) => 6,
        EncodeError::NotSupported(_) => 7,
        EncodeError::NotWellFormed(_) => 8,
        EncodeError::InvalidRepeat(_) => 23,
        EncodeError::SliceTooShort(_) => 9,
    }
}

impl LoadError {
    // Document 01's number.
    pub fn number(self) -> u8
        ensures { result ≡ number_of self }
    {
        match self {
            LoadError::NoMark => 12,
            LoadError::WrongVersion => 13,
            LoadError::WrongLength => 14,
            LoadError::UnknownCode(_) => 15,
            LoadError::Record(_, e) => number_of(e),
        }
    }
}

const HEADER_LENGTH: usize = 9;

// No version has more.
pub const MOST_RECORDS: u16 = 8000;

// The fewest and the most records of a file.
#[derive(Clone, Copy, Debug, PartialEq, Eq)]
pub struct Counts {
    pub fewest: u16,
    pub most: u16,
}

// Those of a version's files.
fn counts_of(version: u16) -> Option<Counts>
    ensures { result ≡ counts_in versions version }
{
    let (fewest, most) = match version {
        1 => (0, 1000),
        2 => (1001, 8000),
        3 => (0, 8000),
        _ => return None,
    };
    Some(Counts { fewest, most })
}

// The bytes of a version's records.
fn record_length(version: u16) -> usize
    ensures value { result ≡ each_in versions version }
    ensures small { result ≤ 57 }
{
    if version == 3 {
        show_record::LONG_RECORD_LENGTH
    } else {
        show_record::RECORD_LENGTH
    }
}

#[tactic(auto, unfolding(crate::specs::Show::is_count))]
fn is_count(limit: u16, fewest: u16, most: u16, count: u16) -> bool
    ensures { result ≡ is_count limit fewest most count }
{
    fewest <= count && count <= most && count <= limit
}

pub fn has_mark(file: &[u8]) -> bool
    ensures { result ≡ has_mark file.now }
{
    file.starts_with(b"FSQ")
}

#[tactic(auto, unfolding(crate::specs::Show::u16_at))]
fn u16_at(file: &[u8], at: usize) -> u16
    requires { at ≤ 7 }
    ensures { result ≡ u16_at file.now at }
{
    u16::from_le_bytes([
        show_record::byte_at(file, at),
        show_record::byte_at(file, at + 1),
    ])
}

// The questions behind the mark.
#[tactic(auto, unfolding(crate::specs::Show::headed))]
fn header_of(file: &[u8], limit: u16) -> Result<Header, LoadError>
    ensures { result ≡ headed limit file.now }
{
    if file.len() < HEADER_LENGTH {
        return Err(LoadError::WrongLength);
    }
    let version = u16_at(file, 3);
    let origin = u16_at(file, 5);
    let count = u16_at(file, 7);
    let Some(counts) = counts_of(version) else {
        return Err(LoadError::WrongVersion);
    };
    if !is_count(limit, counts.fewest, counts.most, count) {
        return Err(LoadError::WrongLength);
    }
    if file.len() != HEADER_LENGTH + record_length(version) * count as usize {
        return Err(LoadError::WrongLength);
    }
    Ok(Header {
        version,
        origin,
        count,
    })
}

// The questions about the file itself; a count above the limit is refused as one above its version's.
#[tactic(auto, unfolding(crate::specs::Show::opened))]
pub fn open(file: &[u8], limit: u16) -> Result<Header, LoadError>
    ensures { result ≡ opened limit file.now }
{
    if has_mark(file) {
        header_of(file, limit)
    } else {
        Err(LoadError::NoMark)
    }
}

// The bytes of a file's records.
#[tactic(auto, unfolding(crate::specs::Show::record_bytes, crate::specs::Show::u16_at))]
pub fn record_bytes(file: &[u8]) -> usize
    requires { header_length ≤ length file.now }
    ensures value { result ≡ record_bytes file.now }
    ensures small { result ≤ 57 }
{
    record_length(u16::from_le_bytes([file[3], file[4]]))
}

// Where record k begins, of records of so many bytes.
pub fn place_of(each: usize, k: usize) -> usize
    requires { (each ≤ 57) × (k ≤ most_records) }
    ensures { result ≡ header_length + each * k }
{
    HEADER_LENGTH + each * k
}

// How many records the header counts.
pub fn record_count(file: &[u8]) -> usize
    ensures { result ≡ (header file.now).count }
{
    u16_at(file, 7) as usize
}

// The bytes of record k of n.
pub fn record(file: &[u8], n: usize, k: usize) -> &[u8]
    requires { (length file.now ≡ record_place file.now n) × (n ≤ most_records) × (k < n) }
    ensures value { result.now ≡ record_at file.now k }
    ensures is_one { is_record (length result.now) ≡ true }
{
    let each = record_bytes(file);
    let from = place_of(each, k);
    &file[from..from + each]
}

// Record k of n.
pub fn insn_at(file: &[u8], n: usize, k: usize) -> InstructionData
    requires { (length file.now ≡ record_place file.now n) × (n ≤ most_records) × (k < n) }
    ensures { result ≡ insn_at file.now k }
{
    show_record::instruction_at(record(file, n, k))
}

// The first record of n with a code that is not known.
pub fn first_unknown(file: &[u8], n: usize) -> Option<usize>
    requires { (length file.now ≡ record_place file.now n) × (n ≤ most_records) }
    ensures first { unwrap_or result n ≡ first_unknown file.now n }
    ensures below { IfSome result (λ k. k < n) }
{
    for k in 0..n {
        if !show_record::codes_known(record(file, n, k)) {
            return Some(k);
        }
    }
    None
}
