// Question 1 of an operand, and whether its codes are known, off the bytes of its record. A no may be wrong: the encoder asks again.
#![tactic(auto)]

ghost use Rattle.std.specs.Prelude.{◌≡◌, true, ◌+◌, ◌≤◌, ◌<◌, length, get_or};
ghost use Rattle.mrc_compiler.specs.declared.encoder.OperandSize.TheVariants as S;
ghost use Rattle.base_values.specs.Distances.{as_i_32};
ghost use Rattle.encode_spec.specs.WellFormed.{is_prefix};
ghost use Rattle.show_record.specs.Record.{operand_length, first_place, second_place, record_length, sizes};
ghost use Rattle.fast_operand.specs.Formed.{is_in_size, Formed, Memory};

use show_record::{
    DISPLACEMENT, DISPLACEMENT_SIZE, FIRST, JUMP_KIND, KIND, MODE, OPERAND_LENGTH, PREFIX,
    RECORD_LENGTH, RM, SIZE,
};

// No prefix, or 26, 2E, 36, 3E.
fn is_prefix(p: u8) -> bool
    ensures { result ≡ true → is_prefix p ≡ true }
{
    if p == 0 {
        return true;
    }
    if p < 0x26 {
        return false;
    }
    if 0x3E < p {
        return false;
    }
    p % 8 == 6
}

// Is a displacement in the range of its size?
fn is_in_size(n: u32, size: u8) -> bool
    requires { size < 3 }
    ensures { result ≡ is_in_size (get_or sizes size S.Unspecified) (as_i_32 n) }
{
    if size == 0 {
        return fast_value::in_range(n, 0, 1);
    }
    if size == 1 {
        return fast_value::in_range(n, 128, 256);
    }
    fast_value::in_range(n, 32768, 98304)
}

fn is_memory_formed(rec: &[u8], at: usize) -> bool
    requires { at + operand_length ≤ length rec.now }
    ensures { result ≡ true → Memory rec.now at }
{
    let mode = rec[at + MODE];
    let rm = rec[at + RM];
    let size = rec[at + DISPLACEMENT_SIZE];
    if 3 <= mode {
        return false;
    }
    if 8 <= rm {
        return false;
    }
    let wanted = x86::displacement_length(mode, rm);
    if size != wanted {
        return false;
    }
    if is_in_size(show_record::u32_at(rec, at + DISPLACEMENT), size) {
        return is_prefix(rec[at + PREFIX]);
    }
    false
}

// Is the operand at a place well formed, with known codes?
fn is_formed(rec: &[u8], at: usize) -> bool
    requires { at + operand_length ≤ length rec.now }
    ensures { result ≡ true → Formed rec.now at }
{
    let kind = rec[at + KIND];
    if 3 <= rec[at + SIZE] {
        return false;
    }
    if 4 <= rec[at + JUMP_KIND] {
        return false;
    }
    if kind == 3 {
        return is_memory_formed(rec, at);
    }
    if rec[at + PREFIX] != 0 {
        return false;
    }
    if rec[at + DISPLACEMENT_SIZE] != 0 {
        return false;
    }
    if kind == 0 {
        if rec[at + MODE] != 0 {
            return false;
        }
        return rec[at + RM] == 0;
    }
    if rec[at + MODE] != 3 {
        return false;
    }
    if show_record::u32_at(rec, at + DISPLACEMENT) != 0 {
        return false;
    }
    if kind == 1 {
        return rec[at + RM] < 8;
    }
    if kind != 2 {
        return false;
    }
    if rec[at + SIZE] != 2 {
        return false;
    }
    rec[at + RM] < 4
}

// Are both operands? By a loop `is_formed` is called from one place, and is inlined: a slice that is passed is stored in two halves and loaded as one, for which
// the processor waits.
pub fn are_formed(rec: &[u8]) -> bool
    requires { length rec.now ≡ record_length }
    ensures { result ≡ true → Formed rec.now first_place × Formed rec.now second_place }
{
    let mut at = FIRST;
    while at < RECORD_LENGTH {
        if is_formed(rec, at) {
            at = at + OPERAND_LENGTH;
        } else {
            return false;
        }
    }
    true
}
