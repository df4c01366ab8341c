// The code list of 003: what of a form is emitted, one piece after the other. FirstOperand says which operand, 0 or 1.
pub const FIRST_OPER_DST: u8 = 0;

pub const FIRST_OPER_SRC: u8 = 1;

#[derive(Clone, Copy, Debug, PartialEq, Eq)]
pub enum Code {
    // Emits the given byte.
    Byte(u8),

    // Emits a byte or word from the operand's imm, which may be negative.
    ImmByte(u8),
    ImmWord(u8),

    // Emits an unsigned word from the operand's displacement.
    DispWord(u8),

    // Emits the distance from the end of the instruction, whose size is the second value, to the operand's imm: a signed byte.
    RelByte(u8, u8),

    // Emits opcode, ModRM and displacement with the given operand in r/m and the other one in reg.
    ModRegRM(u8, u8),

    // The same with the given value in reg.
    ModRM(u8, u8, u8),

    // The cases that 003 does not have.
    // Emits the opcode plus the operand's register number (INC, DEC, MOV, XCHG, PUSH, POP).
    RegByte(u8, u8),

    // Emits the opcode plus 8 times the operand's segment number (PUSH, POP).
    SegByte(u8, u8),

    // Emits the operand's segment prefix and the opcode (MOV with a direct address, XLATB).
    MemByte(u8, u8),

    // Emits a byte or word from the operand's imm, which may not be negative (INT, IN and OUT; RET).
    UnsignedByte(u8),
    UnsignedWord(u8),

    // Emits the low byte of the operand's imm, which is -128 to 127: the processor sign-extends it to a word (83).
    ImmSignExtended(u8),

    // Emits the distance from the end of an instruction of three bytes to the operand's imm, modulo 65,536 (CALL, JMP).
    RelWord(u8),

    // Emits the operand's imm and then its displacement, the far target's segment (JMP).
    FarWords(u8),
}

// One or two codes: &[Code] of the Rust.
#[derive(Clone, Copy, Debug, PartialEq, Eq)]
pub struct Codes {
    pub first: Code,
    pub second: Option<Code>,
}

// Why a group turns a record away before a byte is emitted.
#[derive(Clone, Copy, Debug, PartialEq, Eq)]
pub enum Why {
    InvalidOperands,
    OperandSizeNotSpecified,
    OperandSizesDoNotMatch,
    InvalidOperandSize,

    // The immediate of JMP is no word: the only range that is asked before the form.
    TargetOutOfRange,
    NotSupported,
}

// Whose span is reported.
#[derive(Clone, Copy, Debug, PartialEq, Eq)]
pub enum At {
    Operands,
    First,
}

// What a group answers for a record that has no form; for another the form, whose codes are emitted. In 000 each group calls emit_codes itself.
#[derive(Clone, Copy, Debug, PartialEq, Eq)]
pub struct NoForm {
    pub why: Why,
    pub at: At,
}

impl NoForm {
    // 1, at the instruction and at the first operand.
    pub const INVALID_OPERANDS: NoForm = NoForm {
        why: Why::InvalidOperands,
        at: At::Operands,
    };

    pub const INVALID_FIRST: NoForm = NoForm {
        why: Why::InvalidOperands,
        at: At::First,
    };

    // 2, at the instruction and at the first operand.
    pub const SIZE_NOT_SPECIFIED: NoForm = NoForm {
        why: Why::OperandSizeNotSpecified,
        at: At::Operands,
    };

    pub const SIZE_NOT_SPECIFIED_FIRST: NoForm = NoForm {
        why: Why::OperandSizeNotSpecified,
        at: At::First,
    };

    // 3.
    pub const SIZES_DO_NOT_MATCH: NoForm = NoForm {
        why: Why::OperandSizesDoNotMatch,
        at: At::Operands,
    };

    // 4 at the first operand.
    pub const INVALID_SIZE: NoForm = NoForm {
        why: Why::InvalidOperandSize,
        at: At::First,
    };

    // 5: the immediate of JMP is no word.
    pub const TARGET_OUT_OF_RANGE: NoForm = NoForm {
        why: Why::TargetOutOfRange,
        at: At::First,
    };

    // 7: INT1 and ESC, where 000 reaches todo!.
    pub const NOT_SUPPORTED: NoForm = NoForm {
        why: Why::NotSupported,
        at: At::Operands,
    };
}
