// The loader: a show file becomes the image of its records (REFERENCE 8).
#![tactic(auto)]

ghost use Rattle.std.specs.Prelude.{◌≡◌, ◌<◌, ◌≤◌, true, ◌++◌, length, drop, unwrap_or, IfSome};
ghost use Rattle.encode_spec.specs.Answer.{bytes};
ghost use Rattle.encode_run.specs.Run.{empty_run};
ghost use Rattle.encode_codes.specs.Emit.{emitted};
ghost use Rattle.encoder.specs.Lengths.{length_of};
ghost use Rattle.fast_run.specs.Packed.{unpacked};
ghost use Rattle.show_file.specs.Show.{record_place, most_records};
ghost use Rattle.show_load.specs.Loading.{offset_behind, answer_at, walk, bytes_of, bytes_in, is_all, first_over, measured, accepted, too_short, loaded, image_after};

use encode_run::ByteRun;
use encoder::write_run;
use mrc_compiler::encoder::EncodeError;
use show_file::{Header, LoadError, MOST_RECORDS, first_unknown, insn_at, open, record};

// The offset of what stands behind so many bytes: it wraps at 65,536.
pub fn offset_behind(origin: u16, at: usize) -> u16
    ensures { result ≡ offset_behind origin at }
{
    std::num::wrapping_add_u16(origin, (at % 65536) as u16)
}

// One step: record k of n, so many bytes behind the origin, as the run of its bytes or its refusal.
pub fn run_at(
    file: &[u8],
    n: usize,
    origin: u16,
    k: usize,
    at: usize,
) -> Result<ByteRun, EncodeError>
    requires { (length file.now ≡ record_place file.now n) × (n ≤ most_records) × (k < n) }
    ensures { result ≡ emitted empty_run (answer_at file.now origin k at) }
{
    let insn = insn_at(file, n, k);
    let offset = offset_behind(origin, at);
    encoder::run_of(insn, offset)
}

// The same by the faster way: the bytes as one number, or 0.
fn packed_step(file: &[u8], n: usize, origin: u16, k: usize, at: usize) -> u64
    requires { (length file.now ≡ record_place file.now n) × (n ≤ most_records) × (k < n) }
    ensures { 0 < result → answer_at file.now origin k at ≡ bytes (unpacked result) }
{
    let offset = offset_behind(origin, at);
    fast_encoder::packed_at(record(file, n, k), offset)
}

// Its length, or its refusal.
fn length_at(file: &[u8], n: usize, origin: u16, k: usize, at: usize) -> Result<usize, EncodeError>
    requires { (length file.now ≡ record_place file.now n) × (n ≤ most_records) × (k < n) }
    ensures { result ≡ length_of (answer_at file.now origin k at) }
{
    let packed = packed_step(file, n, origin, k, at);
    if packed != 0 {
        return Ok(fast_run::length_of(packed));
    }
    let insn = insn_at(file, n, k);
    let offset = offset_behind(origin, at);
    encoder::encoded_length(insn, offset)
}

// Each record in order: the header with the length of all, or the first that is refused.
fn measure(file: &[u8], header: Header) -> Result<(Header, usize), LoadError>
    requires { (length file.now ≡ record_place file.now header.count) × (header.count ≤ most_records) }
    ensures { result ≡ measured header (walk file.now header.origin header.count) }
{
    let n = header.count as usize;
    let origin = header.origin;
    let mut at = 0;
    for k in 0..n {
        match length_at(file, n, origin, k, at) {
            Err(e) => return Err(LoadError::Record(k, e)),
            Ok(m) => at += m,
        }
    }
    Ok((header, at))
}

// The questions about the file, of no more records than the limit, then its records: the header and the length of the image, or the refusal.
pub fn accept(file: &[u8], limit: u16) -> Result<(Header, usize), LoadError>
    ensures { result ≡ accepted limit file.now }
{
    let header = open(file, limit)?;
    let n = header.count as usize;
    if let Some(k) = first_unknown(file, n) {
        return Err(LoadError::UnknownCode(k));
    }
    measure(file, header)
}

// The first record that ends behind so many bytes.
fn first_over(file: &[u8], n: usize, origin: u16, size: usize) -> Option<usize>
    requires { (length file.now ≡ record_place file.now n) × (n ≤ most_records) × (is_all (walk file.now origin n) ≡ true) }
    ensures first { unwrap_or result n ≡ first_over file.now origin size n }
    ensures below { IfSome result (λ k. k < n) }
{
    let mut at = 0;
    for k in 0..n {
        let run = run_at(file, n, origin, k, at).unwrap();
        let m = run.len;
        if size - at < m {
            return Some(k);
        }
        at += m;
    }
    None
}

// Writes record k, so many bytes behind the origin, to the front of out, and answers its length.
fn write_record(file: &[u8], n: usize, origin: u16, k: usize, at: usize, out: &mut [u8]) -> usize
    requires { (length file.now ≡ record_place file.now n) × (n ≤ most_records) × (k < n) × (length (bytes_of (answer_at file.now origin k at)) ≤ length out.old) }
    ensures value { result ≡ length (bytes_of (answer_at file.now origin k at)) }
    ensures out_after { out.new ≡ bytes_of (answer_at file.now origin k at) ++ drop (length (bytes_of (answer_at file.now origin k at))) out.old }
{
    let packed = packed_step(file, n, origin, k, at);
    if packed != 0 {
        fast_run::write_packed(packed, out);
        return fast_run::length_of(packed);
    }
    match run_at(file, n, origin, k, at) {
        Ok(run) => {
            write_run(run, out);
            run.len
        },
        Err(_) => 0,
    }
}

// Each record into the part of the image that starts where the last one ended.
fn write_all(file: &[u8], n: usize, origin: u16, image: &mut [u8])
    requires { (length file.now ≡ record_place file.now n) × (n ≤ most_records) × (is_all (walk file.now origin n) ≡ true) × (length (bytes_in (walk file.now origin n)) ≤ length image.old) }
    ensures { image.new ≡ bytes_in (walk file.now origin n) ++ drop (length (bytes_in (walk file.now origin n))) image.old }
{
    let mut at = 0;
    for k in 0..n {
        at += write_record(file, n, origin, k, at, &mut image[at..]);
    }
}

// 9, with the span of the record that does not fit.
fn too_short(file: &[u8], n: usize, k: usize) -> LoadError
    requires { (length file.now ≡ record_place file.now n) × (n ≤ most_records) × (k < n) }
    ensures { result ≡ too_short file.now k }
{
    let insn = insn_at(file, n, k);
    LoadError::Record(k, EncodeError::SliceTooShort(insn.opers_span))
}

// Loads a show file: the image of its records at the front of the lent slice, or the refusal, which leaves the slice as it was.
pub fn load(file: &[u8], image: &mut [u8]) -> Result<(Header, usize), LoadError>
    ensures value { result ≡ loaded file.now (length image.old) }
    ensures image_after { image.new ≡ image_after file.now image.old }
{
    let (header, m) = accept(file, MOST_RECORDS)?;
    let n = header.count as usize;
    let room = image.len();
    if m <= room {
        write_all(file, n, header.origin, image);
        return Ok((header, m));
    }
    let k = first_over(file, n, header.origin, room).unwrap();
    Err(too_short(file, n, k))
}
