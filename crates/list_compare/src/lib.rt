// Instructions compared.
#![tactic(auto)]

ghost use Rattle.std.specs.Prelude.{◌≡◌};
ghost use Rattle.list_spec.specs.Operands.{same_instruction};

use x86::Instruction;

// The same instruction: all its parts are equal.
pub fn same_instruction(a: Instruction, b: Instruction) -> bool
    ensures { result ≡ same_instruction a b }
{
    a == b
}
