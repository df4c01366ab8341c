// The converter: a show from a 186 module becomes a show for the 8086 (REFERENCE 16).
#![tactic(auto)]

ghost use Rattle.std.specs.Prelude.{◌≡◌, ◌++◌, ◌+◌, ◌*◌, ◌<◌, ◌≤◌, false, ltb, pos, length, drop, get_or, Err};
ghost use Rattle.mrc_compiler.specs.Choose.{pick};
ghost use Rattle.encode_spec.specs.Records.{dst};
ghost use Rattle.show_file.specs.Show.{most_records, insn_at, first_unknown};
ghost use Rattle.show_load.specs.Loading.{accepted};
ghost use Rattle.convert_spec.specs.declared.ConvertError.TheVariants as X;
ghost use Rattle.convert_spec.specs.Counts.{has_count, times};
ghost use Rattle.convert_spec.specs.OldStarts.{first_copy};
ghost use Rattle.convert_spec.specs.Targets.{branch_of, is_branch, place_of};
ghost use Rattle.convert_spec.specs.Written.{moved_by, replaced, new_record, copies, written};
ghost use Rattle.convert_spec.specs.Converting.{fitted, show_converted, converted, slice_after};
ghost use Rattle.convert_laws.specs.Passed.{Show1};
ghost use Rattle.convert_passes.specs.Passes.{place, Room, Movable, Filled};
ghost use Rattle.show_convert.specs.Placing.{placed_as, stray_of, Ready};

use convert_passes::{first_miscounted, first_stray, lay_out, measure, new_imm, shown, total};
use convert_record::{branch_of, has_count, put_i32, times_of};
use convert_spec::ConvertError;
use mrc_compiler::encoder::InstructionData;
use show_file::{Header, LoadError, first_unknown, insn_at};

const HEADER_LENGTH: usize = 9;

// Of version 1.
const RECORD_LENGTH: usize = 56;

// The places of the immediates in a record.
const FIRST_IMM: usize = 17;

const SECOND_IMM: usize = 40;

// Copies bytes to the front of out.
fn put(bytes: &[u8], out: &mut [u8])
    requires { length bytes.now ≤ length out.old }
    ensures { out.new ≡ bytes.now ++ drop (length bytes.now) out.old }
{
    out[..bytes.len()].copy_from_slice(bytes);
}

// So many copies of a record, one behind the other.
fn put_copies(rec: &[u8], times: usize, out: &mut [u8])
    requires { (length rec.now ≡ 56) × (times ≤ 31) × (56 * times ≤ length out.old) }
    ensures { out.new ≡ copies times rec.now ++ drop (56 * times) out.old }
{
    for made in 0..times {
        put(rec, &mut out[RECORD_LENGTH * made..]);
    }
}

// A record's bytes become those of the record that stands for it.
fn patch(insn: InstructionData, n: usize, starts: &[u16], gains: &[u32], rec: &mut [u8])
    requires { (n ≤ 1000) × Room n starts.now gains.now × Movable insn n starts.now gains.now × (length rec.old ≡ 56) }
    ensures { rec.new ≡ pick (is_branch (branch_of insn)) (replaced rec.old 17 (moved_by (branch_of insn) (dst insn).imm (get_or gains.now (place_of (place starts.now) n insn) 0))) (pick (has_count insn) (replaced rec.old 40 (pos 1)) rec.old) }
{
    if branch_of(insn).is_some() {
        put_i32(rec, FIRST_IMM, new_imm(insn, n, starts, gains));
    } else if has_count(insn) {
        put_i32(rec, SECOND_IMM, 1);
    }
}

// Record k, so often as its count says, to the front of out; answers how often.
fn write_record(
    file: &[u8],
    header: Header,
    k: usize,
    starts: &[u16],
    gains: &[u32],
    out: &mut [u8],
) -> usize
    requires { Filled file.now header starts.now gains.now × (k < header.count) × (56 * times (insn_at file.now k) ≤ length out.old) }
    ensures value { result ≡ times (insn_at file.now k) }
    ensures out_after { out.new ≡ copies (times (insn_at file.now k)) (new_record file.now header.origin header.count k) ++ drop (56 * times (insn_at file.now k)) out.old }
{
    let n = header.count as usize;
    let insn = insn_at(file, n, k);
    let from = HEADER_LENGTH + RECORD_LENGTH * k;
    let mut rec = [0u8; RECORD_LENGTH];
    rec.copy_from_slice(&file[from..from + RECORD_LENGTH]);
    patch(insn, n, starts, gains, &mut rec);
    let t = times_of(insn);
    put_copies(&rec, t, out);
    t
}

// The written file, whose count is c, to the front of out.
fn write_all(file: &[u8], header: Header, c: usize, starts: &[u16], gains: &[u32], out: &mut [u8])
    requires { Filled file.now header starts.now gains.now × (c ≡ first_copy file.now header.count) × (c ≤ 1000) × (9 + 56 * c ≤ length out.old) }
    ensures { out.new ≡ written file.now header ++ drop (9 + 56 * c) out.old }
{
    let n = header.count as usize;
    let head = &file[..7];
    put(head, out);
    out[7] = (c % 256) as u8;
    out[8] = (c / 256) as u8;
    let mut at = HEADER_LENGTH;
    for k in 0..n {
        let part = &mut out[at..];
        let t = write_record(file, header, k, starts, gains, part);
        at += RECORD_LENGTH * t;
    }
}

// What is left behind the question about targets: the written file's own refusals, its length, and the file.
fn convert_placed(
    file: &[u8],
    header: Header,
    starts: &[u16],
    gains: &[u32],
    out: &mut [u8],
) -> Result<usize, ConvertError>
    requires { Filled file.now header starts.now gains.now × (ltb (first_unknown file.now header.count) header.count ≡ false) }
    ensures value { result ≡ fitted (length (written file.now header)) (length out.old) (accepted most_records (written file.now header)) }
    ensures out_after { out.new ≡ placed_as (written file.now header) out.old result }
{
    let n = header.count as usize;
    let c = total(file, n);
    if 1000 < c {
        return Err(ConvertError::Load(LoadError::WrongLength));
    }
    measure(file, header, starts, gains)?;
    let m = HEADER_LENGTH + RECORD_LENGTH * c;
    if out.len() < m {
        return Err(ConvertError::SliceTooShort);
    }
    write_all(file, header, c, starts, gains, out);
    Ok(m)
}

// What is left behind the records' own refusals: the targets, and the written file.
fn convert_laid(
    file: &[u8],
    header: Header,
    starts: &[u16],
    gains: &[u32],
    out: &mut [u8],
) -> Result<usize, ConvertError>
    requires { Ready file.now header starts.now gains.now }
    ensures value { result ≡ pick (ltb (stray_of file.now header) header.count) (Err (X.NoRecordAtTarget (stray_of file.now header))) (fitted (length (written file.now header)) (length out.old) (accepted most_records (written file.now header))) }
    ensures out_after { out.new ≡ placed_as (written file.now header) out.old result }
{
    let n = header.count as usize;
    if let Some(stray) = first_stray(file, n, starts) {
        return Err(ConvertError::NoRecordAtTarget(stray));
    }
    convert_placed(file, header, starts, gains, out)
}

// A file that was opened.
fn convert_show(file: &[u8], header: Header, out: &mut [u8]) -> Result<usize, ConvertError>
    requires { Show1 file.now header }
    ensures value { result ≡ show_converted file.now header (length out.old) }
    ensures out_after { out.new ≡ placed_as (written file.now header) out.old result }
{
    let n = header.count as usize;
    if let Some(unknown) = first_unknown(file, n) {
        return Err(ConvertError::Load(LoadError::UnknownCode(unknown)));
    }
    if let Some(miscounted) = first_miscounted(file, n) {
        return Err(ConvertError::ShiftCountOutOfRange(miscounted));
    }
    // Fixed memory: the library has no heap.
    let mut starts = [0u16; 1001];
    let mut gains = [0u32; 1001];
    lay_out(file, n, header.origin, &mut starts, &mut gains)?;
    convert_laid(file, header, &starts, &gains, out)
}

// Converts a show file: the converted file at the front of the lent slice, or the refusal, which leaves the slice as it was.
pub fn convert(file: &[u8], out: &mut [u8]) -> Result<usize, ConvertError>
    ensures value { result ≡ converted file.now (length out.old) }
    ensures out_after { out.new ≡ slice_after file.now out.old }
{
    let header = shown(file)?;
    convert_show(file, header, out)
}
