// 003: what each code of a code list emits, field by field, or the refusal: decided by value.
#![tactic(auto)]

ghost use Rattle.std.specs.Prelude.{◌≡◌, [], ◌∷◌, ◌++◌, ◌+◌, ◌*◌, ◌/◌, ◌%◌};
ghost use Rattle.encode_spec.specs.Layout.{prefix_bytes, displacement_bytes};
ghost use Rattle.encode_spec.specs.Limits.{target, segment, limits};
ghost use Rattle.encode_fields.specs.Fields.{field_bytes, fields_bytes, answer_of, required, immediate_byte, immediate_word, relative_byte, relative_word, mod_rm_byte, mod_reg_rm, joined, operand, other, code_answer};

use mrc_compiler::ast::Span;
use mrc_compiler::encoder::generate::Code;
use mrc_compiler::encoder::{EncodeError, InstructionData, OperandData, OperandSize};

// A field of an instruction: a byte, or a word, low byte first.
#[derive(Clone, Copy, Debug, PartialEq, Eq)]
pub enum Field {
    Byte(u8),
    Word(u16),
}

// What a code emits, one field after the other.
#[derive(Clone, Copy, Debug, PartialEq, Eq)]
pub struct Fields {
    pub prefix: Option<Field>,
    pub opcode: Option<Field>,
    pub modrm: Option<Field>,
    pub value: Option<Field>,
}

// An immediate, a distance, or an opcode by itself.
fn value_field(value: Field) -> Fields
    ensures { fields_bytes result ≡ field_bytes (Some value) }
{
    Fields {
        prefix: None,
        opcode: None,
        modrm: None,
        value: Some(value),
    }
}

// The prefix of a memory operand, also where it names the default segment; 0 means none.
fn prefix_field(segment_prefix: u8) -> Option<Field>
    ensures { field_bytes result ≡ prefix_bytes segment_prefix }
{
    if segment_prefix == 0 {
        None
    } else {
        Some(Field::Byte(segment_prefix))
    }
}

// The displacement, in the size that the operand states.
fn displacement_field(oper: OperandData) -> Option<Field>
    ensures { field_bytes result ≡ displacement_bytes oper }
{
    match oper.displacement_size {
        OperandSize::Unspecified => None,
        OperandSize::Byte => Some(Field::Byte(base_values::low_byte(oper.displacement))),
        OperandSize::Word => Some(Field::Word(base_values::low_word(oper.displacement))),
    }
}

// The ModRM byte of its three fields.
fn mod_rm_byte(mode: u8, reg: u8, rm: u8) -> u8
    ensures { result ≡ mod_rm_byte mode reg rm }
{
    (mode % 4) * 64 + (reg % 8) * 8 + rm % 8
}

// Prefix, opcode, ModRM and displacement.
fn mod_reg_rm(op_code: u8, rm: OperandData, reg: u8) -> Fields
    ensures { fields_bytes result ≡ mod_reg_rm op_code rm reg }
{
    Fields {
        prefix: prefix_field(rm.segment_prefix),
        opcode: Some(Field::Byte(op_code)),
        modrm: Some(Field::Byte(mod_rm_byte(rm.mode, reg, rm.rm))),
        value: displacement_field(rm),
    }
}

// Prefix and opcode.
fn prefixed_op_code(segment_prefix: u8, op_code: u8) -> Fields
    ensures { fields_bytes result ≡ prefix_bytes segment_prefix ++ (op_code ∷ []) }
{
    Fields {
        prefix: prefix_field(segment_prefix),
        opcode: Some(Field::Byte(op_code)),
        modrm: None,
        value: None,
    }
}

// Refusal 5 for a value that is not in its limits.
fn require_within(low: i32, high: i32, value: i32, span: Span) -> Result<(), EncodeError>
    ensures { result ≡ required low high value span }
{
    if base_values::value_is_within(value, low, high) {
        Ok(())
    } else {
        Err(EncodeError::ImmediateOutOfRange(span, value, low, high))
    }
}

// The low byte of a value in its limits, or refusal 5.
fn byte_within(low: i32, high: i32, value: i32, span: Span) -> Result<Fields, EncodeError>
    ensures { answer_of result ≡ immediate_byte low high value span }
{
    require_within(low, high, value, span)?;
    Ok(value_field(Field::Byte(base_values::low_byte(value))))
}

// The low word of a value in its limits, or refusal 5.
fn word_within(low: i32, high: i32, value: i32, span: Span) -> Result<Fields, EncodeError>
    ensures { answer_of result ≡ immediate_word low high value span }
{
    require_within(low, high, value, span)?;
    Ok(value_field(Field::Word(base_values::low_word(value))))
}

// A distance byte, or refusal 6.
fn relative_byte(oper: OperandData, offset: u16, size: u8) -> Result<Fields, EncodeError>
    ensures { answer_of result ≡ relative_byte oper offset size }
{
    match base_values::relative_byte(oper.imm, offset, size) {
        Ok(byte) => Ok(value_field(Field::Byte(byte))),
        Err(distance) => Err(EncodeError::RelativeJumpOutOfRange(
            oper.span,
            OperandSize::Byte,
            true,
            distance,
        )),
    }
}

// A distance word, or refusal 5 for a target that is no word.
fn relative_word(oper: OperandData, offset: u16) -> Result<Fields, EncodeError>
    ensures { answer_of result ≡ relative_word oper offset }
{
    require_within(0, 65535, oper.imm, oper.span)?;
    Ok(value_field(Field::Word(base_values::near_distance(oper.imm, offset))))
}

// The target's offset, then its segment: two words, which stand in the fields of an opcode and of its value.
fn far_words(oper: OperandData) -> Result<Fields, EncodeError>
    ensures { answer_of result ≡ joined (immediate_word (limits target).low (limits target).high oper.imm oper.span) (immediate_word (limits segment).low (limits segment).high oper.displacement oper.span) }
{
    require_within(0, 65535, oper.imm, oper.span)?;
    require_within(0, 65535, oper.displacement, oper.span)?;
    Ok(Fields {
        prefix: None,
        opcode: Some(Field::Word(base_values::low_word(oper.imm))),
        modrm: None,
        value: Some(Field::Word(base_values::low_word(oper.displacement))),
    })
}

// An opcode with a register's number in its low bits.
fn opcode_with_register(op_code: u8, rm: u8) -> u8
    ensures { result ≡ (op_code + rm % 8) % 256 }
{
    ((op_code as u16 + (rm % 8) as u16) % 256) as u8
}

// An opcode with a segment register's number in bits 3 and 4.
fn opcode_with_segment(op_code: u8, rm: u8) -> u8
    ensures { result ≡ (op_code + 8 * (rm % 4)) % 256 }
{
    ((op_code as u16 + 8 * (rm % 4) as u16) % 256) as u8
}

// The operand that a code names.
fn operand_of(insn: InstructionData, k: u8) -> OperandData
    ensures { result ≡ operand insn k }
{
    if k == 0 { insn.opers[0] } else { insn.opers[1] }
}

// The operand that a code does not name.
fn other_of(insn: InstructionData, k: u8) -> OperandData
    ensures { result ≡ other insn k }
{
    if k == 0 { insn.opers[1] } else { insn.opers[0] }
}

// What one code emits, or why it is refused.
#[inline(always)]
pub fn fields_of(insn: InstructionData, offset: u16, code: Code) -> Result<Fields, EncodeError>
    ensures { answer_of result ≡ code_answer code insn offset }
{
    match code {
        Code::Byte(byte) => Ok(value_field(Field::Byte(byte))),
        Code::ImmByte(k) => {
            let oper = operand_of(insn, k);
            byte_within(-128, 255, oper.imm, oper.span)
        }
        Code::ImmWord(k) => {
            let oper = operand_of(insn, k);
            word_within(-32768, 65535, oper.imm, oper.span)
        }
        Code::DispWord(k) => {
            let oper = operand_of(insn, k);
            word_within(0, 65535, oper.displacement, oper.span)
        }
        Code::RelByte(k, size) => relative_byte(operand_of(insn, k), offset, size),
        Code::ModRegRM(k, op_code) => {
            let rm = operand_of(insn, k);
            let reg = other_of(insn, k);
            Ok(mod_reg_rm(op_code, rm, reg.rm))
        }
        Code::ModRM(k, op_code, reg) => Ok(mod_reg_rm(op_code, operand_of(insn, k), reg)),
        Code::RegByte(k, op_code) => {
            let oper = operand_of(insn, k);
            let opcode = opcode_with_register(op_code, oper.rm);
            Ok(value_field(Field::Byte(opcode)))
        }
        Code::SegByte(k, op_code) => {
            let oper = operand_of(insn, k);
            let opcode = opcode_with_segment(op_code, oper.rm);
            Ok(value_field(Field::Byte(opcode)))
        }
        Code::MemByte(k, op_code) => {
            let oper = operand_of(insn, k);
            Ok(prefixed_op_code(oper.segment_prefix, op_code))
        }
        Code::UnsignedByte(k) => {
            let oper = operand_of(insn, k);
            byte_within(0, 255, oper.imm, oper.span)
        }
        Code::UnsignedWord(k) => {
            let oper = operand_of(insn, k);
            word_within(0, 65535, oper.imm, oper.span)
        }
        Code::ImmSignExtended(k) => {
            let oper = operand_of(insn, k);
            Ok(value_field(Field::Byte(base_values::low_byte(oper.imm))))
        }
        Code::RelWord(k) => relative_word(operand_of(insn, k), offset),
        Code::FarWords(k) => far_words(operand_of(insn, k)),
    }
}

// The low byte of a word.
pub fn low_half(word: u16) -> u8
    ensures { result ≡ word % 256 }
{
    (word % 256) as u8
}

// The high byte of a word.
pub fn high_half(word: u16) -> u8
    ensures { result ≡ word / 256 }
{
    (word / 256) as u8
}
