// The dispatch of 000's encode, in three steps: an operation's group with its base, the form that the group's function decides, the form's code list.
#![tactic(auto)]

ghost use Rattle.std.specs.Prelude.{◌≡◌};
ghost use Rattle.encode_spec.specs.Records.{dst, src};
ghost use Rattle.encode_plans.specs.Decisions.{decision_in};
ghost use Rattle.encode_plans.specs.Plans.{plan_of};

use encode_groups::{Group, Grouped};
use encode_lines::Decision;
use mrc_compiler::encoder::InstructionData;
use mrc_compiler::encoder::generate::{Codes, NoForm};

// The form that a record takes, or the refusal: the group's function.
pub fn decide(group: Group, insn: InstructionData) -> Result<Decision, NoForm>
    ensures { result ≡ decision_in group insn.num_opers (dst insn) (src insn) }
{
    match group {
        Group::Arithmetic => {
            encode_arithmetic::encode_group_add_or_adc_sbb_and_sub_xor_cmp(&insn)
        }
        Group::Unary => encode_arithmetic::encode_group_not_neg_mul_imul_div_idiv(&insn),
        Group::Mov => encode_transfer::encode_group_mov(&insn),
        Group::Test => encode_arithmetic::encode_group_test(&insn),
        Group::Xchg => encode_transfer::encode_group_xchg(&insn),
        Group::IncDec => encode_arithmetic::encode_group_inc_dec(&insn),
        Group::Push => encode_transfer::encode_group_push(&insn),
        Group::Pop => encode_transfer::encode_group_pop(&insn),
        Group::Ret => encode_control::encode_group_ret_retn_retf(&insn),
        Group::Lea => encode_transfer::encode_group_lea(&insn),
        Group::LesLds => encode_transfer::encode_group_les_lds(&insn),
        Group::Shift => encode_arithmetic::encode_group_rol_ror_rcl_rcr_shl_sal_shr_sar(&insn),
        Group::Call => encode_control::encode_group_call(&insn),
        Group::Jmp => encode_control::encode_group_jmp(&insn),
        Group::Jcc => encode_control::encode_group_jcc(&insn),
        Group::Loopc => encode_control::encode_group_loopc(&insn),
        Group::NoOperands => encode_control::encode_group_no_operands(&insn),
        Group::Prefixes => encode_control::encode_group_prefixes(&insn),
        Group::Int => encode_control::encode_group_int(&insn),
        Group::Aam => encode_control::encode_group_aam(&insn),
        Group::Aad => encode_control::encode_group_aad(&insn),
        Group::Xlat => encode_transfer::encode_group_xlat(&insn),
        Group::In => encode_transfer::encode_group_in(&insn),
        Group::Out => encode_transfer::encode_group_out(&insn),
        Group::Unsupported => encode_lines::without_size(Err(NoForm::NOT_SUPPORTED)),
    }
}

// The code list of a record's form, or the refusal.
pub fn plan_of(insn: InstructionData) -> Result<Codes, NoForm>
    ensures { result ≡ plan_of insn }
{
    let Grouped { group, base } = encode_groups::group_of(insn.operation);
    encode_lines::plan_for(decide(group, insn), base)
}
