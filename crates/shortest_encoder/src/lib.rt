// Writes the shortest string of a record's instruction, the first of its listing (document 02, No. 8).
#![tactic(auto)]

ghost use Rattle.std.specs.Prelude.{true, ◌≡◌, ◌<◌, ◌≤◌, take};
ghost use Rattle.encode_spec.specs.Answer.{outcome, slice_after};
ghost use Rattle.encode_run.specs.Run.{empty_run, appended};
ghost use Rattle.encode_codes.specs.Emit.{emitted};
ghost use Rattle.list_spec.specs.Parts.{parts_of};
ghost use Rattle.list_spec.specs.Possible.{possible};
ghost use Rattle.list_first.specs.First.{is_first_of};
ghost use Rattle.shortest_encoder.specs.Search.{best_of, string_in, stepped, search};
ghost use Rattle.shortest_encoder.specs.Shortest.{shortest_answer};

use encode_run::ByteRun;
use list_spec::Parts;
use mrc_compiler::encoder::{EncodeError, InstructionData};
use x86::Instruction;

// The lowest string so far, and its number.
#[derive(Clone, Copy, Debug, PartialEq, Eq)]
pub struct Best {
    run: ByteRun,
    key: u64,
}

// The best string, or candidate i, or the same with the prefix, where it is lower and reads as the instruction. The prefix makes it longer: where the candidate is not
// lower, or reads as the instruction, the other is not built.
fn step(offset: u16, insn: Instruction, parts: Parts, best: Best, i: u8) -> Best
    requires parts_value { parts ≡ parts_of insn }
    requires best_value { best ≡ best_of (string_in best) }
    requires i_bound { i < 6 }
    requires i_value { possible parts i ≡ true }
    ensures { result ≡ best_of (stepped offset insn (string_in best) i) }
{
    let run = list_candidates::candidate_run(offset, parts, i);
    let key = lister::key_of(run);
    if best.key <= key {
        return best;
    }
    if lister::is_run_of(run, offset, insn) {
        return Best { run, key };
    }
    if parts.prefix == 0 {
        return best;
    }
    let prefixed = list_candidates::candidate_run(offset, parts, i + 6);
    let longer = lister::key_of(prefixed);
    if best.key <= longer {
        return best;
    }
    if lister::is_run_of(prefixed, offset, insn) {
        return Best {
            run: prefixed,
            key: longer,
        };
    }
    best
}

// The lowest of an instruction's own string and its candidates.
fn shortest_of(offset: u16, insn: Instruction, own: ByteRun) -> ByteRun
    requires len_bound { own.len ≤ 7 }
    requires own_value { own ≡ appended empty_run (take own.len own.bytes) }
    ensures { result ≡ appended empty_run (search offset insn (take own.len own.bytes) 6) }
{
    let parts = list_parts::parts_of(insn);
    let mut best = Best {
        run: own,
        key: lister::key_of(own),
    };
    for i in 0..6 {
        if list_possible::is_possible(parts, i) {
            best = step(offset, insn, parts, best, i);
        }
    }
    best.run
}

// Do a run's first bytes tell that it is the first of its listing?
fn is_first_run(run: ByteRun) -> bool
    ensures { result ≡ is_first_of run.bytes }
{
    let [b0, b1, b2, b3, b4, ..] = run.bytes;
    list_first::is_first(b0, b1, b2, b3, b4)
}

// The shortest run of a record at an offset, or encode's refusal.
pub fn shortest_run(insn: InstructionData, offset: u16) -> Result<ByteRun, EncodeError>
    ensures { result ≡ emitted empty_run (shortest_answer insn offset) }
{
    let run = encoder::run_of(insn, offset)?;
    if is_first_run(run) {
        return Ok(run);
    }
    match lister::read_run(run, offset) {
        Ok((own, _)) => Ok(shortest_of(offset, own, run)),
        Err(_) => Ok(run),
    }
}

// As encode, with the first string of the record's listing.
pub fn encode_shortest(
    insn: InstructionData,
    offset: u16,
    out: &mut [u8],
) -> Result<usize, EncodeError>
    ensures value { result ≡ outcome (shortest_answer insn offset) insn.opers_span out.old }
    ensures out_after { out.new ≡ slice_after (shortest_answer insn offset) out.old }
{
    let run = shortest_run(insn, offset)?;
    if encoder::write_run(run, out) {
        Ok(run.len)
    } else {
        Err(EncodeError::SliceTooShort(insn.opers_span))
    }
}
