// A record that is converted: its count, its bytes, its target, and the records that it becomes (REFERENCE 16).
#![tactic(auto)]

ghost use Rattle.std.specs.Prelude.{◌≡◌, true, ◌+◌, ◌*◌, ◌<◌, ◌≤◌, pos, length, Some};
ghost use Rattle.std.specs.Int.Signed.{mag};
ghost use Rattle.shift_copies.specs.Shifting.{is_shift};
ghost use Rattle.convert_spec.specs.declared.Branch.TheVariants as B;
ghost use Rattle.convert_spec.specs.Counts.{has_count, count_of, count_taken, times, with_imm, with_operands, with_count_one, old_bytes, gained};
ghost use Rattle.convert_spec.specs.Targets.{branch_of};
ghost use Rattle.convert_spec.specs.Written.{moved_by, replaced};
ghost use Rattle.convert_laws.specs.Branches.{near_in};
ghost use Rattle.convert_laws.specs.NewRecords.{with_first};

use convert_spec::Branch;
use encode_groups::Group;
use mrc_compiler::encoder::{InstructionData, JumpKind, OperandData, OperandKind};
use mrc_compiler::operations::Operation;

// A shift or a rotate?
#[tactic(auto, unfolding(shift_copies::specs::Shifting::is_shift))]
fn is_shift(operation: Operation) -> bool
    ensures { result ≡ is_shift operation }
{
    matches!(
        operation,
        Operation::ROL
            | Operation::ROR
            | Operation::RCL
            | Operation::RCR
            | Operation::SHL
            | Operation::SHR
            | Operation::SAR
    )
}

// Does the record carry a count?
#[tactic(auto, unfolding(convert_spec::specs::Counts::has_count))]
pub fn has_count(insn: InstructionData) -> bool
    ensures { result ≡ has_count insn }
{
    matches!(insn.opers[1].kind, OperandKind::Imm) && is_shift(insn.operation)
}

// Its count; 1 where it carries none.
#[tactic(auto, unfolding(convert_spec::specs::Counts::count_of))]
fn count_of(insn: InstructionData) -> i32
    ensures { result ≡ count_of insn }
{
    if has_count(insn) {
        insn.opers[1].imm
    } else {
        1
    }
}

// Is it 1 to 31?
pub fn count_taken(insn: InstructionData) -> bool
    ensures { result ≡ count_taken insn }
{
    base_values::value_is_within(count_of(insn), 1, 31)
}

// How many records it becomes.
pub fn times_of(insn: InstructionData) -> usize
    ensures { result ≡ times insn }
{
    base_values::magnitude(count_of(insn)) as usize
}

fn with_imm(oper: OperandData, value: i32) -> OperandData
    ensures { result ≡ with_imm oper value }
{
    OperandData { imm: value, ..oper }
}

fn with_operands(insn: InstructionData, dst: OperandData, src: OperandData) -> InstructionData
    ensures { result ≡ with_operands insn dst src }
{
    InstructionData {
        opers: [dst, src],
        ..insn
    }
}

// The record with its count read as 1.
#[tactic(auto, unfolding(convert_spec::specs::Counts::with_count_one))]
pub fn by_one(insn: InstructionData) -> InstructionData
    ensures { result ≡ with_count_one insn }
{
    if has_count(insn) {
        with_operands(insn, insn.opers[0], with_imm(insn.opers[1], 1))
    } else {
        insn
    }
}

// The record with another first immediate.
pub fn with_first(insn: InstructionData, value: i32) -> InstructionData
    ensures { result ≡ with_first insn value }
{
    with_operands(insn, with_imm(insn.opers[0], value), insn.opers[1])
}

// The bytes of the old record, whose copies have m each.
#[tactic(auto, unfolding(convert_spec::specs::Counts::old_bytes))]
pub fn old_bytes(insn: InstructionData, m: usize) -> usize
    requires { m ≤ 7 }
    ensures { result ≡ old_bytes insn m }
{
    if 1 < times_of(insn) { m + 1 } else { m }
}

// What its copies of m bytes each gain.
pub fn gained_by(insn: InstructionData, m: usize) -> usize
    requires { (count_taken insn ≡ true) × (1 ≤ m) × (m ≤ 7) }
    ensures value { result ≡ gained insn m }
    ensures small { result ≤ 217 }
{
    times_of(insn) * m - old_bytes(insn, m)
}

// What an immediate of this jump kind is in a group's form.
fn near_in(group: Group, jump: Option<JumpKind>) -> Option<Branch>
    ensures { result ≡ near_in group jump }
{
    match (group, jump) {
        (Group::Call | Group::Jmp, None | Some(JumpKind::Near)) => Some(Branch::Near),
        (Group::Jmp, Some(JumpKind::Short)) => Some(Branch::Short),
        (Group::Jcc | Group::Loopc, None | Some(JumpKind::Short)) => Some(Branch::Short),
        _ => None,
    }
}

// What its form holds of a near target.
#[tactic(auto, using(convert_laws::proofs::Branches::branch_by_group))]
pub fn branch_of(insn: InstructionData) -> Option<Branch>
    ensures { result ≡ branch_of insn }
{
    match insn.opers[0].kind {
        OperandKind::Imm => {
            let group = encode_groups::group_of(insn.operation).group;
            near_in(group, insn.opers[0].jmp_kind)
        },
        OperandKind::Reg | OperandKind::Seg | OperandKind::Mem => None,
    }
}

// A target moved by so many bytes: that of E8 and E9 wraps.
pub fn moved_by(branch: Option<Branch>, target: i32, gain: u32) -> i32
    requires { (branch ≡ Some B.Short → mag target < 70000) × (gain ≤ 217000) }
    ensures { result ≡ moved_by branch target gain }
{
    match branch {
        None => target,
        Some(Branch::Short) => target + gain as i32,
        Some(Branch::Near) => ((base_values::low_word(target) as u32 + gain) % 65536) as i32,
    }
}

// An i32 at a place of a record, low byte first.
pub fn put_i32(rec: &mut [u8], at: usize, value: i32)
    requires { at + 4 ≤ length rec.old }
    ensures { rec.new ≡ replaced rec.old at value }
{
    rec[at..at + 4].copy_from_slice(&base_values::bits_of(value).to_le_bytes());
}
