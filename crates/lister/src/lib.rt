// Lists all strings of the same instruction as a record's, as entries of 8 bytes (demand 3).
#![tactic(auto)]

ghost use Rattle.std.specs.Prelude.{◌≡◌, ◌++◌, ◌*◌, ◌<◌, ◌≤◌, length, take, drop, get_or};
ghost use Rattle.x86.specs.Reading.{reads};
ghost use Rattle.encode_spec.specs.Answer.{answer};
ghost use Rattle.list_spec.specs.Parts.{parts_of};
ghost use Rattle.list_spec.specs.Entries.{is_whole, candidate_key, listing, entries};
ghost use Rattle.lister.specs.Runs.{key_of};
ghost use Rattle.lister.specs.Listing.{listing_of, outcome, slice_after};

use encode_run::ByteRun;
use list_spec::Parts;
use mrc_compiler::encoder::{EncodeError, InstructionData};
use x86::{Instruction, ReadError};

// The number that the entry of a run spells.
pub fn key_of(run: ByteRun) -> u64
    requires { run.len ≤ 7 }
    ensures { result ≡ key_of run }
{
    let [b0, b1, b2, b3, b4, b5, b6] = run.bytes;
    u64::from_be_bytes([run.len as u8, b0, b1, b2, b3, b4, b5, b6])
}

// Is it this instruction, with this length?
#[tactic(auto, unfolding(list_spec::specs::Entries::is_whole))]
fn is_whole(read: Result<(Instruction, usize), ReadError>, insn: Instruction, n: usize) -> bool
    ensures { result ≡ is_whole read insn n }
{
    matches!(read, Ok((other, k)) if k == n && list_compare::same_instruction(other, insn))
}

// What a run reads as.
pub fn read_run(run: ByteRun, offset: u16) -> Result<(Instruction, usize), ReadError>
    requires { run.len ≤ 7 }
    ensures { result ≡ reads offset (take run.len run.bytes) }
{
    reader::read_at(&run.bytes[..run.len], offset)
}

// Does a run read, to the last byte, as the instruction?
pub fn is_run_of(run: ByteRun, offset: u16, insn: Instruction) -> bool
    requires { run.len ≤ 7 }
    ensures { result ≡ is_whole (reads offset (take run.len run.bytes)) insn run.len }
{
    is_whole(read_run(run, offset), insn, run.len)
}

// The number of candidate i, if it reads as the instruction.
fn candidate_key(offset: u16, insn: Instruction, parts: Parts, i: u8) -> Option<u64>
    requires { parts ≡ parts_of insn }
    ensures { result ≡ candidate_key offset insn i }
{
    if list_possible::is_possible(parts, i) {
        let run = list_candidates::candidate_run(offset, parts, i);
        if is_run_of(run, offset, insn) {
            return Some(key_of(run));
        }
    }
    None
}

// Writes the listing of an instruction at an offset, and answers how many entries it has.
fn list_instruction(offset: u16, insn: Instruction, out: &mut [u8]) -> usize
    requires { 96 ≤ length out.old }
    ensures { (result ≡ length (listing offset insn)) × (out.new ≡ entries (listing offset insn) ++ drop (8 * length (listing offset insn)) out.old) }
{
    let parts = list_parts::parts_of(insn);
    // Twelve numbers in fixed memory, not a Vec: no heap below foreign.
    let mut keys: [Option<u64>; 12] = [None; 12];
    for i in 0..12 {
        keys[i] = candidate_key(offset, insn, parts, i as u8);
    }
    list_entries::write_entries(keys, out)
}

// Writes the listing of the instruction that a run reads as.
fn list_run(run: ByteRun, offset: u16, out: &mut [u8]) -> usize
    requires len_bound { run.len ≤ 7 }
    requires in_bounds { 96 ≤ length out.old }
    ensures value { result ≡ length (listing_of (reads offset (take run.len run.bytes)) offset) }
    ensures out_after { out.new ≡ entries (listing_of (reads offset (take run.len run.bytes)) offset) ++ drop (8 * length (listing_of (reads offset (take run.len run.bytes)) offset)) out.old }
{
    match read_run(run, offset) {
        Ok((insn, _)) => list_instruction(offset, insn, out),
        Err(_) => 0,
    }
}

// Lists all strings of 1 to 7 bytes that the table reads at an offset, to the last byte, as the record's instruction: entries of 8 bytes from
// the front of out, each a length, the string and zeros, shorter strings first and equal lengths by their first differing byte. Answers their
// count; the bytes behind the last entry stay. Refuses as encode does, and 9 where out has fewer than 96 bytes; then no byte changes.
pub fn list(insn: InstructionData, offset: u16, out: &mut [u8]) -> Result<usize, EncodeError>
    ensures value { result ≡ outcome (answer insn offset) insn offset out.old }
    ensures out_after { out.new ≡ slice_after (answer insn offset) insn offset out.old }
{
    let run = encoder::run_of(insn, offset)?;
    if out.len() < 96 {
        return Err(EncodeError::SliceTooShort(insn.opers_span));
    }
    Ok(list_run(run, offset, out))
}
