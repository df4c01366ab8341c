// The check of targets: does every near branch of a show go to a record's start or to the end (REFERENCE 17)?
#![tactic(auto)]

ghost use Rattle.std.specs.Prelude.{◌≡◌, ◌+◌, ◌<◌, ◌≤◌, true, unwrap_or, IfSome, length};
ghost use Rattle.show_file.specs.Show.{record_place, most_records, insn_at};
ghost use Rattle.show_load.specs.Loading.{walk, measured};
ghost use Rattle.convert_laws.specs.Passed.{Table};
ghost use Rattle.convert_passes.specs.Passes.{place};
ghost use Rattle.check_spec.specs.Checking.{start_of, on_to, record_around, targets_checked, checked_by, checked};
ghost use Rattle.show_check.specs.Placed.{is_image};

use check_spec::CheckError;
use convert_passes::first_stray;
use show_file::{Header, LoadError, MOST_RECORDS, first_unknown, insn_at, open};
use show_load::{offset_behind, run_at};

// From an offset on to another: it wraps at 65,536.
fn on_to(from: u16, to: u16) -> u16
    ensures { result ≡ on_to from to }
{
    to.wrapping_sub(from)
}

// The first of n records with a byte at the target.
fn record_around(starts: &[u16], n: usize, target: u16) -> Option<usize>
    requires { (n ≤ most_records) × (n + 1 ≤ length starts.now) }
    ensures value { unwrap_or result n ≡ record_around (place starts.now) n target }
    ensures there { IfSome result (λ k. k < n) }
{
    for k in 0..n {
        let from = starts[k];
        let end = starts[k + 1];
        if on_to(from, target) < on_to(from, end) {
            return Some(k);
        }
    }
    None
}

// The targets of n records that start there, with an image of so many bytes.
fn check_targets(file: &[u8], n: usize, size: usize, starts: &[u16]) -> Result<usize, CheckError>
    requires { (length file.now ≡ record_place file.now n) × (n ≤ most_records) × (n + 1 ≤ length starts.now) }
    ensures { result ≡ targets_checked (place starts.now) (insn_at file.now) n size }
{
    let Some(k) = first_stray(file, n, starts) else {
        return Ok(size);
    };
    let insn = insn_at(file, n, k);
    let target = base_values::low_word(insn.opers[0].imm);
    match record_around(starts, n, target) {
        Some(around) => Err(CheckError::Inside(k, target, around)),
        None => Err(CheckError::Outside(k, target)),
    }
}

// Each record in order: where it starts, and the end; the header with the length of all, or the first that is refused.
fn place_records(
    file: &[u8],
    header: Header,
    starts: &mut [u16],
) -> Result<(Header, usize), LoadError>
    requires { (length file.now ≡ record_place file.now header.count) × (header.count ≤ most_records) × (header.count + 1 ≤ length starts.old) }
    ensures value { result ≡ measured header (walk file.now header.origin header.count) }
    ensures table { is_image result ≡ true → Table (start_of file.now header.origin) (header.count + 1) starts.new }
{
    let n = header.count as usize;
    let origin = header.origin;
    let mut at = 0;
    for k in 0..n {
        starts[k] = offset_behind(origin, at);
        match run_at(file, n, origin, k, at) {
            Err(e) => {
                return Err(LoadError::Record(k, e));
            },
            Ok(run) => {
                at += run.len;
            },
        }
    }
    starts[n] = offset_behind(origin, at);
    Ok((header, at))
}

// The records of a file whose codes are known.
fn check_records(file: &[u8], header: Header) -> Result<usize, CheckError>
    requires { (length file.now ≡ record_place file.now header.count) × (header.count ≤ most_records) }
    ensures { result ≡ checked_by file.now (measured header (walk file.now header.origin header.count)) }
{
    let n = header.count as usize;
    let mut starts = [0u16; 8001];
    let (_, size) = place_records(file, header, &mut starts)?;
    check_targets(file, n, size, &starts)
}

// Checks a show file: the length of its image where every near target is a record's start or the end, or the first that is not, or the loader's refusal.
pub fn check(file: &[u8]) -> Result<usize, CheckError>
    ensures { result ≡ checked file.now }
{
    let header = open(file, MOST_RECORDS)?;
    let n = header.count as usize;
    if let Some(unknown) = first_unknown(file, n) {
        return Err(CheckError::Load(LoadError::UnknownCode(unknown)));
    }
    check_records(file, header)
}
