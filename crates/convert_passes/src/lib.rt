// The passes over a show from a 186 module: its counts, its old starts and what is gained before each, its targets, the written file measured (REFERENCE 16).
#![tactic(auto)]

ghost use Rattle.std.specs.Prelude.{◌≡◌, ◌==◌, true, ◌+◌, ◌<◌, ◌≤◌, unwrap_or, IfSome, OnOk, length, get_or};
ghost use Rattle.std.specs.List.{position_from};
ghost use Rattle.mrc_compiler.specs.Choose.{pick};
ghost use Rattle.encode_spec.specs.Records.{dst};
ghost use Rattle.show_file.specs.Show.{record_place, most_records, insn_at};
ghost use Rattle.show_load.specs.Loading.{walk};
ghost use Rattle.convert_spec.specs.Counts.{with_count_one};
ghost use Rattle.convert_spec.specs.OldStarts.{old_offset, gain, first_copy};
ghost use Rattle.convert_spec.specs.Targets.{branch_of, is_branch, place_of, is_stray, first_stray};
ghost use Rattle.convert_spec.specs.Written.{moved_by, written};
ghost use Rattle.convert_spec.specs.Converting as Converting;
ghost use Rattle.convert_spec.specs.Converting.{is_other_version, first_miscounted};
ghost use Rattle.convert_laws.specs.NewRecords.{with_first};
ghost use Rattle.convert_laws.specs.Passed.{Counted, Table};
ghost use Rattle.convert_passes.specs.Passes.{laid_out, walked_as, place, Room, Movable, Filled};

use convert_record::{
    branch_of, by_one, count_taken, gained_by, moved_by, old_bytes, times_of, with_first,
};
use mrc_compiler::encoder::InstructionData;
use show_file::{Header, LoadError, MOST_RECORDS, first_unknown, insn_at};
use show_load::offset_behind;

const HEADER_LENGTH: usize = 9;

// Does the header name another version?
fn is_other_version(file: &[u8]) -> bool
    ensures { result ≡ is_other_version file.now }
{
    if show_file::has_mark(file) {
        if file.len() < HEADER_LENGTH {
            return false;
        }
        if show_record::byte_at(file, 3) != 1 {
            return true;
        }
        show_record::byte_at(file, 4) != 0
    } else {
        false
    }
}

// The questions about the file itself.
pub fn shown(file: &[u8]) -> Result<Header, LoadError>
    ensures { result ≡ Converting.shown file.now }
{
    if is_other_version(file) {
        Err(LoadError::WrongVersion)
    } else {
        show_file::open(file, MOST_RECORDS)
    }
}

// The first record whose count is not 1 to 31.
pub fn first_miscounted(file: &[u8], n: usize) -> Option<usize>
    requires { (length file.now ≡ record_place file.now n) × (n ≤ most_records) }
    ensures value { unwrap_or result n ≡ first_miscounted file.now n }
    ensures there { IfSome result (λ k. k < n) }
{
    for k in 0..n {
        if !count_taken(insn_at(file, n, k)) {
            return Some(k);
        }
    }
    None
}

// The old starts of the records and of the end, and what is gained before each, or the first record that is refused at its own.
// Two lists and not one of pairs: `first_stray` and the check of targets take the starts alone.
pub fn lay_out(
    file: &[u8],
    n: usize,
    origin: u16,
    starts: &mut [u16],
    gains: &mut [u32],
) -> Result<(), LoadError>
    requires { (length file.now ≡ record_place file.now n) × (n ≤ 1000) × Room n starts.old gains.old × Counted file.now n }
    ensures value { result ≡ laid_out file.now origin n }
    ensures table { OnOk result (Table (old_offset file.now origin) (n + 1) starts.new) }
    ensures table_2 { OnOk result (Table (gain file.now origin) (n + 1) gains.new) }
{
    let mut at = 0;
    let mut gain = 0;
    for k in 0..n {
        let offset = offset_behind(origin, at);
        starts[k] = offset;
        gains[k] = gain;
        let insn = insn_at(file, n, k);
        let one = by_one(insn);
        let length = encoder::encoded_length(one, offset);
        match length {
            Err(e) => {
                return Err(LoadError::Record(k, e));
            },
            Ok(m) => {
                at += old_bytes(insn, m);
                gain += gained_by(insn, m) as u32;
            },
        }
    }
    starts[n] = offset_behind(origin, at);
    gains[n] = gain;
    Ok(())
}

// The first start that stands at an offset. `first_stray` and `new_imm`, which README names, answer for any starts, also such as do not rise: so there is no search by halves.
fn place_at(starts: &[u16], target: u16) -> Option<usize>
    ensures { result ≡ position_from (λ start. start == target) 0 starts.now }
{
    starts.iter().position(|&start| start == target)
}

// Where a branch goes: one of n records, or the end.
fn place_of(insn: InstructionData, n: usize, starts: &[u16]) -> Option<usize>
    requires { (n ≤ most_records) × (n + 1 ≤ length starts.now) }
    ensures value { unwrap_or result (n + 1) ≡ place_of (place starts.now) n insn }
    ensures there { IfSome result (λ k. k < n + 1) }
{
    place_at(&starts[..n + 1], base_values::low_word(insn.opers[0].imm))
}

// Does a branch go to no place?
fn is_stray(insn: InstructionData, n: usize, starts: &[u16]) -> bool
    requires { (n ≤ most_records) × (n + 1 ≤ length starts.now) }
    ensures { result ≡ is_stray (place starts.now) n insn }
{
    branch_of(insn).is_some() && place_of(insn, n, starts).is_none()
}

// The first that does.
pub fn first_stray(file: &[u8], n: usize, starts: &[u16]) -> Option<usize>
    requires { (length file.now ≡ record_place file.now n) × (n ≤ most_records) × (n + 1 ≤ length starts.now) }
    ensures value { unwrap_or result n ≡ first_stray (place starts.now) (insn_at file.now) n }
    ensures there { IfSome result (λ k. k < n) }
{
    for k in 0..n {
        if is_stray(insn_at(file, n, k), n, starts) {
            return Some(k);
        }
    }
    None
}

// The immediate of a branch, moved by what is gained before its target.
pub fn new_imm(insn: InstructionData, n: usize, starts: &[u16], gains: &[u32]) -> i32
    requires { (n ≤ 1000) × Room n starts.now gains.now × (is_branch (branch_of insn) ≡ true) × Movable insn n starts.now gains.now }
    ensures { result ≡ moved_by (branch_of insn) (dst insn).imm (get_or gains.now (place_of (place starts.now) n insn) 0) }
{
    let to = place_of(insn, n, starts).unwrap();
    moved_by(branch_of(insn), insn.opers[0].imm, gains[to])
}

// How many records are written for n.
pub fn total(file: &[u8], n: usize) -> usize
    requires { (length file.now ≡ record_place file.now n) × (n ≤ 1000) × Counted file.now n }
    ensures { result ≡ first_copy file.now n }
{
    let mut sum = 0;
    for k in 0..n {
        sum += times_of(insn_at(file, n, k));
    }
    sum
}

// The record that stands for a record: a branch with its new immediate, a shift with the count 1.
fn new_insn(insn: InstructionData, n: usize, starts: &[u16], gains: &[u32]) -> InstructionData
    requires { (n ≤ 1000) × Room n starts.now gains.now × Movable insn n starts.now gains.now }
    ensures { result ≡ pick (is_branch (branch_of insn)) (with_first insn (moved_by (branch_of insn) (dst insn).imm (get_or gains.now (place_of (place starts.now) n insn) 0))) (with_count_one insn) }
{
    if branch_of(insn).is_some() {
        with_first(insn, new_imm(insn, n, starts, gains))
    } else {
        by_one(insn)
    }
}

// The written file's records, in the loader's order: all are accepted, or the first that is refused. A shift is answered alike everywhere, so that only its first copy is asked about.
pub fn measure(file: &[u8], header: Header, starts: &[u16], gains: &[u32]) -> Result<(), LoadError>
    requires { Filled file.now header starts.now gains.now }
    ensures { result ≡ walked_as (walk (written file.now header) header.origin (first_copy file.now header.count)) }
{
    let n = header.count as usize;
    let origin = header.origin;
    let mut at = 0;
    let mut first = 0;
    for k in 0..n {
        let insn = insn_at(file, n, k);
        let one = new_insn(insn, n, starts, gains);
        let offset = offset_behind(origin, at);
        let length = encoder::encoded_length(one, offset);
        match length {
            Err(e) => {
                return Err(LoadError::Record(first, e));
            },
            Ok(m) => {
                let times = times_of(insn);
                at += times * m;
                first += times;
            },
        }
    }
    Ok(())
}
