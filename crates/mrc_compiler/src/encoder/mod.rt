// The data of 000: operands and instructions with their builders, the ranges of values, and the refusals.
ghost use Rattle.std.specs.Prelude.{◌≡◌, ℤ, pos, negsuc, true};
ghost use Rattle.mrc_compiler.specs.Values.{within, mod_z};
ghost use Rattle.mrc_compiler.specs.Required.{required, required_byte, required_signed_byte, required_word, required_signed_word};
ghost use Rattle.mrc_compiler.specs.Refusals.{span_of};
ghost use Rattle.mrc_compiler.specs.Builders.{is_specified, is_unspecified, prefix_for, prefix_or_0, size_from, immediate_operand, register_operand, segment_operand, direct_operand, indirect_operand, far_operand, is_direct, is_direct_address, no_operands, one_operand, two_operands, with_repeat};

pub mod generate;

use crate::ast::{DataSize, Segment, Span};
use crate::operations::Operation;

/// A type whose range a value may have to keep: value_ops! of 000 has one function pair for each of `u8`, `i8`, `u16` and `i16`.
pub trait ValueRange: Sized {
    ghost MIN: { ℤ };

    ghost MAX: { ℤ };

    // What the type holds of a value.
    ghost held: { ℤ → Self };

    const MIN: i32;

    const MAX: i32;

    /// The value in the type.
    fn of_value(value: i32) -> Self
        requires { within MIN MAX value ≡ true }
        ensures { result ≡ held value };
}

impl ValueRange for u8 {
    ghost MIN = { pos 0 };

    ghost MAX = { pos 255 };

    ghost held = { mod_z 256 };

    const MIN: i32 = 0;

    const MAX: i32 = 255;

    fn of_value(value: i32) -> u8 {
        value as u8
    }
}

impl ValueRange for i8 {
    ghost MIN = { negsuc 127 };

    ghost MAX = { pos 127 };

    ghost held = { λ z. z };

    const MIN: i32 = -128;

    const MAX: i32 = 127;

    fn of_value(value: i32) -> i8 {
        value as i8
    }
}

impl ValueRange for u16 {
    ghost MIN = { pos 0 };

    ghost MAX = { pos 65535 };

    ghost held = { mod_z 65536 };

    const MIN: i32 = 0;

    const MAX: i32 = 65535;

    fn of_value(value: i32) -> u16 {
        value as u16
    }
}

impl ValueRange for i16 {
    ghost MIN = { negsuc 32767 };

    ghost MAX = { pos 32767 };

    ghost held = { λ z. z };

    const MIN: i32 = -32768;

    const MAX: i32 = 32767;

    fn of_value(value: i32) -> i16 {
        value as i16
    }
}

/// Does the type hold the value?
pub fn value_is<T: ValueRange>(value: i32) -> bool
    ensures { result ≡ within T.MIN T.MAX value }
{
    T::MIN <= value && value <= T::MAX
}

/// The value in the type, or refusal 5 with the type's limits.
pub fn require_value<T: ValueRange>(value: i32, span: Span) -> Result<T, EncodeError>
    ensures { result ≡ required T.held T.MIN T.MAX value span }
{
    if value_is::<T>(value) {
        Ok(T::of_value(value))
    } else {
        Err(EncodeError::ImmediateOutOfRange(span, value, T::MIN, T::MAX))
    }
}

// value_ops!(value_is_byte, require_value_is_byte, u8)
pub fn value_is_byte(value: i32) -> bool
    ensures { result ≡ within (pos 0) (pos 255) value }
{
    value_is::<u8>(value)
}

pub fn require_value_is_byte(value: i32, span: Span) -> Result<u8, EncodeError>
    ensures { result ≡ required_byte value span }
{
    require_value(value, span)
}

// value_ops!(value_is_signed_byte, require_value_is_signed_byte, i8)
pub fn value_is_signed_byte(value: i32) -> bool
    ensures { result ≡ within (negsuc 127) (pos 127) value }
{
    value_is::<i8>(value)
}

pub fn require_value_is_signed_byte(value: i32, span: Span) -> Result<i8, EncodeError>
    ensures { result ≡ required_signed_byte value span }
{
    require_value(value, span)
}

// value_ops!(value_is_word, require_value_is_word, u16)
pub fn value_is_word(value: i32) -> bool
    ensures { result ≡ within (pos 0) (pos 65535) value }
{
    value_is::<u16>(value)
}

pub fn require_value_is_word(value: i32, span: Span) -> Result<u16, EncodeError>
    ensures { result ≡ required_word value span }
{
    require_value(value, span)
}

// value_ops!(value_is_signed_word, require_value_is_signed_word, i16)
pub fn value_is_signed_word(value: i32) -> bool
    ensures { result ≡ within (negsuc 32767) (pos 32767) value }
{
    value_is::<i16>(value)
}

pub fn require_value_is_signed_word(value: i32, span: Span) -> Result<i16, EncodeError>
    ensures { result ≡ required_signed_word value span }
{
    require_value(value, span)
}

// The refusals of the encoder. 000 has the first six; the last four are those of questions 2, 1 and 8, which 000 does not ask.
// Their numbers and values are those of specs/Refusals.
#[derive(Clone, Copy, Debug, PartialEq, Eq)]
pub enum EncodeError {
    InvalidOperands(Span),
    OperandSizeNotSpecified(Span),
    OperandSizesDoNotMatch(Span),
    InvalidOperandSize(Span),
    ImmediateOutOfRange(Span, i32, i32, i32),
    RelativeJumpOutOfRange(Span, OperandSize, bool, i32),
    NotSupported(Span),
    NotWellFormed(Span),
    InvalidRepeat(Span),
    SliceTooShort(Span),
}

impl EncodeError {
    // The place in the source text that the refusal reports.
    pub fn span(self) -> Span
        ensures { result ≡ span_of self }
    {
        match self {
            EncodeError::InvalidOperands(span)
            | EncodeError::OperandSizeNotSpecified(span)
            | EncodeError::OperandSizesDoNotMatch(span)
            | EncodeError::InvalidOperandSize(span)
            | EncodeError::ImmediateOutOfRange(span, _, _, _)
            | EncodeError::RelativeJumpOutOfRange(span, _, _, _)
            | EncodeError::NotSupported(span)
            | EncodeError::NotWellFormed(span)
            | EncodeError::InvalidRepeat(span)
            | EncodeError::SliceTooShort(span) => span,
        }
    }
}

// The prefix byte that names a segment.
pub fn segment_prefix_for(seg: Segment) -> u8
    ensures { result ≡ prefix_for seg }
{
    0x26 + seg.encoding() * 8
}

#[derive(Clone, Copy, Debug, PartialEq, Eq)]
pub enum OperandKind {
    Imm,
    Reg,
    Seg,
    Mem,
}

#[derive(Clone, Copy, Debug, PartialEq, Eq)]
pub enum OperandSize {
    Unspecified,
    Byte,
    Word,
}

impl OperandSize {
    // Is the size a byte or a word?
    pub fn is_specified(self) -> bool
        ensures { result ≡ is_specified self }
    {
        self != OperandSize::Unspecified
    }

    // Is no size stated?
    pub fn is_unspecified(self) -> bool
        ensures { result ≡ is_unspecified self }
    {
        self == OperandSize::Unspecified
    }
}

#[derive(Clone, Copy, Debug, PartialEq, Eq)]
pub enum JumpKind {
    Far,
    Near,
    Short,
}

#[derive(Clone, Copy, Debug, PartialEq, Eq)]
pub struct OperandData {
    // The operand's place in the source text.
    pub span: Span,

    // The stated size of the operand.
    pub size: OperandSize,

    pub kind: OperandKind,

    // The segment prefix's byte; 0 means no prefix.
    pub segment_prefix: u8,

    // The value of an immediate.
    pub imm: i32,

    // The displacement of a memory operand; the segment of a far target.
    pub displacement: i32,

    pub displacement_size: OperandSize,

    pub jmp_kind: Option<JumpKind>,

    // The mode and r/m fields of ModRM.
    pub mode: u8,
    pub rm: u8,
}

// The prefix byte of a segment override, 0 for none.
fn override_prefix(seg_override: Option<Segment>) -> u8
    ensures { result ≡ prefix_or_0 seg_override }
{
    match seg_override {
        None => 0,
        Some(seg) => segment_prefix_for(seg),
    }
}

impl OperandData {
    // An operand that is not given: the immediate 0.
    pub fn empty(span: Span) -> OperandData
        ensures { result ≡ immediate_operand span (pos 0) }
    {
        OperandData::immediate(span, 0)
    }

    // A value.
    pub fn immediate(span: Span, value: i32) -> OperandData
        ensures { result ≡ immediate_operand span value }
    {
        OperandData {
            span,
            size: OperandSize::Unspecified,
            kind: OperandKind::Imm,
            segment_prefix: 0,
            imm: value,
            displacement: 0,
            displacement_size: OperandSize::Unspecified,
            jmp_kind: None,
            mode: 0,
            rm: 0,
        }
    }

    // A register, by its number in ModRM.
    pub fn register(span: Span, encoding: u8, size: OperandSize) -> OperandData
        ensures { result ≡ register_operand span encoding size }
    {
        OperandData {
            span,
            size,
            kind: OperandKind::Reg,
            segment_prefix: 0,
            imm: 0,
            displacement: 0,
            displacement_size: OperandSize::Unspecified,
            jmp_kind: None,
            mode: 3,
            rm: encoding,
        }
    }

    // A segment register, by its number in ModRM. It is a word.
    pub fn segment(span: Span, encoding: u8) -> OperandData
        ensures { result ≡ segment_operand span encoding }
    {
        OperandData {
            span,
            size: OperandSize::Word,
            kind: OperandKind::Seg,
            segment_prefix: 0,
            imm: 0,
            displacement: 0,
            displacement_size: OperandSize::Unspecified,
            jmp_kind: None,
            mode: 3,
            rm: encoding,
        }
    }

    // Memory at an address with no base.
    pub fn direct(
        span: Span,
        address: i32,
        data_size: Option<DataSize>,
        seg_override: Option<Segment>,
    ) -> OperandData
        ensures { result ≡ direct_operand span address data_size seg_override }
    {
        OperandData {
            span,
            size: operand_size_from_data_size(data_size),
            kind: OperandKind::Mem,
            segment_prefix: override_prefix(seg_override),
            imm: 0,
            displacement: address,
            displacement_size: OperandSize::Word,
            jmp_kind: None,
            mode: 0,
            rm: 6,
        }
    }

    // Memory at a base, with the shortest displacement that holds the value. BP alone has no form without one.
    pub fn indirect(
        span: Span,
        addr_mode: u8,
        displacement: i16,
        data_size: Option<DataSize>,
        seg_override: Option<Segment>,
    ) -> OperandData
        ensures { result ≡ indirect_operand span addr_mode displacement data_size seg_override }
    {
        let wide = displacement as i32;
        let size = operand_size_from_data_size(data_size);
        let prefix = override_prefix(seg_override);
        if value_is_zero(wide) && addr_mode != 6 {
            OperandData {
                span,
                size,
                kind: OperandKind::Mem,
                segment_prefix: prefix,
                imm: 0,
                displacement: 0,
                displacement_size: OperandSize::Unspecified,
                jmp_kind: None,
                mode: 0,
                rm: addr_mode,
            }
        } else if value_is_signed_byte(wide) {
            OperandData {
                span,
                size,
                kind: OperandKind::Mem,
                segment_prefix: prefix,
                imm: 0,
                displacement: wide,
                displacement_size: OperandSize::Byte,
                jmp_kind: None,
                mode: 1,
                rm: addr_mode,
            }
        } else {
            OperandData {
                span,
                size,
                kind: OperandKind::Mem,
                segment_prefix: prefix,
                imm: 0,
                displacement: wide,
                displacement_size: OperandSize::Word,
                jmp_kind: None,
                mode: 2,
                rm: addr_mode,
            }
        }
    }

    // A far target; its segment is kept in the displacement.
    pub fn far(span: Span, offset: i32, segment: i32) -> OperandData
        ensures { result ≡ far_operand span offset segment }
    {
        OperandData {
            span,
            size: OperandSize::Unspecified,
            kind: OperandKind::Imm,
            segment_prefix: 0,
            imm: offset,
            displacement: segment,
            displacement_size: OperandSize::Unspecified,
            jmp_kind: Some(JumpKind::Far),
            mode: 0,
            rm: 0,
        }
    }

    // Is it memory at an address with no base?
    pub fn is_direct(self) -> bool
        ensures { result ≡ is_direct self }
    {
        self.kind == OperandKind::Mem && is_direct_address(self.mode, self.rm)
    }
}

// Is the value 0?
fn value_is_zero(value: i32) -> bool
    ensures { result ≡ within (pos 0) (pos 0) value }
{
    value == 0
}

// Mode 0 with r/m 6 is no base but an address.
pub fn is_direct_address(mode: u8, rm: u8) -> bool
    ensures { result ≡ is_direct_address mode rm }
{
    mode == 0 && rm == 6
}

// The operand size of a data size that may be stated.
pub fn operand_size_from_data_size(data_size: Option<DataSize>) -> OperandSize
    ensures { result ≡ size_from data_size }
{
    match data_size {
        None => OperandSize::Unspecified,
        Some(DataSize::Byte) => OperandSize::Byte,
        Some(DataSize::Word) => OperandSize::Word,
    }
}

#[derive(Clone, Copy, Debug, PartialEq, Eq)]
pub struct InstructionData {
    pub operation: Operation,
    pub num_opers: u8,

    // The byte of REPNE or REP, F2 or F3, before a string operation; 0 means none. 000 has no such field.
    pub repeat: u8,

    pub opers: [OperandData; 2],
    pub opers_span: Span,
}

impl InstructionData {
    // An instruction with no operands.
    pub fn none(span: Span, op: Operation) -> InstructionData
        ensures { result ≡ no_operands span op }
    {
        InstructionData {
            operation: op,
            num_opers: 0,
            repeat: 0,
            opers: [OperandData::empty(span), OperandData::empty(span)],
            opers_span: span,
        }
    }

    // An instruction with one operand.
    pub fn dst(span: Span, op: Operation, dst: OperandData) -> InstructionData
        ensures { result ≡ one_operand span op dst }
    {
        InstructionData {
            operation: op,
            num_opers: 1,
            repeat: 0,
            opers: [dst, OperandData::empty(span)],
            opers_span: span,
        }
    }

    // An instruction with two operands.
    pub fn dst_and_src(
        span: Span,
        op: Operation,
        dst: OperandData,
        src: OperandData,
    ) -> InstructionData
        ensures { result ≡ two_operands span op dst src }
    {
        InstructionData {
            operation: op,
            num_opers: 2,
            repeat: 0,
            opers: [dst, src],
            opers_span: span,
        }
    }

    // The same instruction with another repeat.
    pub fn repeated(self, repeat: u8) -> InstructionData
        ensures { result ≡ with_repeat repeat self }
    {
        InstructionData { repeat, ..self }
    }
}
