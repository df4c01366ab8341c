// The twelve candidates of an instruction's listing, each as a run of bytes.
#![tactic(auto)]

ghost use Rattle.std.specs.Prelude.{◌≡◌, ◌/◌, ◌%◌, ◌≤◌};
ghost use Rattle.encode_spec.specs.Layout.{word_bytes, prefix_bytes};
ghost use Rattle.encode_run.specs.Run.{empty_run, appended};
ghost use Rattle.list_spec.specs.Candidates.{displacement_bytes, second_bytes, distance, tail_bytes, string_of, repeated_string, candidate_of};

use encode_run::ByteRun;
use list_spec::{Candidate, Parts, Second, Start, Tail};

// ---- the bytes

// A word, low byte first.
fn push_word(run: ByteRun, value: u16) -> ByteRun
    ensures { result ≡ appended run (word_bytes value) }
{
    let [low, high] = value.to_le_bytes();
    encode_run::push(encode_run::push(run, low), high)
}

// The prefix of a segment; 0 means none.
fn push_prefix(run: ByteRun, prefix: u8) -> ByteRun
    ensures { result ≡ appended run (prefix_bytes prefix) }
{
    if prefix == 0 {
        run
    } else {
        encode_run::push(run, prefix)
    }
}

// A displacement of n bytes.
fn push_displacement(run: ByteRun, n: u8, displacement: u16) -> ByteRun
    ensures { result ≡ appended run (displacement_bytes n displacement) }
{
    match n {
        0 => run,
        1 => encode_run::push(run, (displacement % 256) as u8),
        _ => push_word(run, displacement),
    }
}

// The second byte, with the displacement where it is ModRM.
fn push_second(run: ByteRun, second: Option<Second>, displacement: u16) -> ByteRun
    ensures { result ≡ appended run (second_bytes second displacement) }
{
    match second {
        None => run,
        Some(Second::ModRm(x)) => {
            let next = encode_run::push(run, x);
            push_displacement(next, x86::displacement_length(x / 64, x % 8), displacement)
        }
        Some(Second::Fixed(x)) => encode_run::push(run, x),
    }
}

// The distance to the target from the end of n bytes at an offset.
fn distance_from(target: u16, offset: u16, n: u16) -> u16
    requires { n ≤ 3 }
    ensures { result ≡ distance target offset n }
{
    target.wrapping_sub(offset.wrapping_add(n))
}

// What the instruction ends with.
fn push_tail(run: ByteRun, tail: Option<Tail>, offset: u16, parts: Parts) -> ByteRun
    ensures { result ≡ appended run (tail_bytes tail offset parts.displacement parts.value parts.segment) }
{
    let value = parts.value;
    match tail {
        None => run,
        Some(Tail::Byte) => encode_run::push(run, (value % 256) as u8),
        Some(Tail::Word) => push_word(run, value),
        Some(Tail::Near8) => {
            let distance = distance_from(value, offset, 2);
            encode_run::push(run, (distance % 256) as u8)
        }
        Some(Tail::Near16) => push_word(run, distance_from(value, offset, 3)),
        Some(Tail::Far) => push_word(push_word(run, value), parts.segment),
        Some(Tail::Address) => push_word(run, parts.displacement),
    }
}

// The string of an instruction with a prefix (0: none), a start and its values.
fn string_run(offset: u16, prefix: u8, start: Start, parts: Parts) -> ByteRun
    ensures { result ≡ appended empty_run (string_of offset prefix start parts) }
{
    let prefixed = push_prefix(encode_run::empty_run(), prefix);
    let coded = encode_run::push(prefixed, start.opcode);
    let moded = push_second(coded, start.second, parts.displacement);
    push_tail(moded, start.tail, offset, parts)
}

// The string of an instruction with a repeat.
fn repeated_run(repeat: u8, opcode: u8) -> ByteRun
    ensures { result ≡ appended empty_run (repeated_string repeat opcode) }
{
    encode_run::push(encode_run::push(encode_run::empty_run(), repeat), opcode)
}

// Candidate i, below 12, of an instruction by its parts. The docs name this function: it answers each u8, as `candidate_of` does.
#[tactic(auto, unfolding(list_spec::specs::Candidates::candidate_of))]
pub fn candidate_run(offset: u16, parts: Parts, i: u8) -> ByteRun
    ensures { result ≡ appended empty_run (candidate_of offset parts i) }
{
    let candidate = Candidate::numbered(i);
    let start = list_starts::start_of(parts, candidate);
    if parts.repeat != 0 {
        return repeated_run(parts.repeat, start.opcode);
    }
    let prefix = if candidate.prefixed { parts.prefix } else { 0 };
    string_run(offset, prefix, start, parts)
}
