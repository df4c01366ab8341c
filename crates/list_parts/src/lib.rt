// What of an instruction its strings are made of.
#![tactic(auto)]

ghost use Rattle.std.specs.Prelude.{◌≡◌};
ghost use Rattle.list_spec.specs.Operands.{prefix_in};
ghost use Rattle.list_spec.specs.Parts.{is_short, parts_of};

use list_spec::Parts;
use mrc_compiler::encoder::segment_prefix_for;
use x86::operands::{displacement_in, far_segment_in, type_of, value_in};
use x86::{Instruction, Operand};

// The prefix of the segment that memory is in; 0 for another operand.
pub fn prefix_in(oper: Operand) -> u8
    ensures { result ≡ prefix_in oper }
{
    match oper {
        Operand::Memory(_, _, segment) => segment_prefix_for(segment),
        _ => 0,
    }
}

// Is a displacement -128 to 127?
fn is_short(displacement: u16) -> bool
    ensures { result ≡ is_short displacement }
{
    displacement < 128 || 65408 <= displacement
}

// Of the two operands one at most has a prefix, a displacement, a value or a far segment: the sum is that operand's.
pub fn parts_of(insn: Instruction) -> Parts
    ensures { result ≡ parts_of insn }
{
    let Instruction {
        repeat,
        operation,
        width,
        first,
        second,
    } = insn;
    let grouped = encode_groups::group_of(operation);
    let displacement = displacement_in(first).wrapping_add(displacement_in(second));
    Parts {
        repeat,
        group: grouped.group,
        base: grouped.base,
        width,
        first: type_of(first),
        second: type_of(second),
        prefix: prefix_in(first).wrapping_add(prefix_in(second)),
        displacement,
        zero: displacement == 0,
        short: is_short(displacement),
        value: value_in(first).wrapping_add(value_in(second)),
        segment: far_segment_in(first).wrapping_add(far_segment_in(second)),
    }
}
