// The lines of the table of forms that a record can take, and the code list of each.
#![tactic(auto)]

ghost use Rattle.std.specs.Prelude.{◌≡◌, ◌+◌, ◌*◌, ◌%◌, ◌≤◌};
ghost use Rattle.mrc_compiler.specs.declared.ast.DataSize.TheVariants as Z;
ghost use Rattle.encode_lines.specs.Lines.{bit, immediate, one_code, two_codes, line_codes, decision, plain, planned};

use mrc_compiler::ast::DataSize;
use mrc_compiler::encoder::generate::{Code, Codes, FIRST_OPER_DST, FIRST_OPER_SRC, NoForm};

// A line of the table of forms (x86, specs/Forms): a form of a group, whatever its operation and its size.
#[derive(Clone, Copy, Debug, PartialEq, Eq)]
pub enum Line {
    // ADD OR ADC SBB AND SUB XOR CMP: ModRM; 83; accumulator; 80 and 81.
    ArithRmReg,
    ArithRegRm,
    ArithRmImmSx,
    ArithAccImm,
    ArithRmImm,

    // NOT NEG MUL IMUL DIV IDIV.
    UnaryRm,

    // INC DEC.
    IncReg,
    IncRm,

    // MOV.
    MovAccMoffs,
    MovMoffsAcc,
    MovRmReg,
    MovRegRm,
    MovRmSreg,
    MovSregRm,
    MovRegImm,
    MovRmImm,

    // XCHG: 90 + register, with AX first and second; 86 and 87, with memory second and first.
    XchgAccReg,
    XchgRegAcc,
    XchgRegRm,
    XchgRmReg,

    // TEST: of two registers the second in reg; memory first and second; accumulator; F6 and F7.
    TestRmReg,
    TestRegRm,
    TestAccImm,
    TestRmImm,

    PushReg,
    PushSreg,
    PushRm,
    PopReg,
    PopSreg,
    PopRm,

    // LEA LES LDS.
    LoadRegMem,

    // Shifts and rotates by 1 and by CL.
    ShiftRmOne,
    ShiftRmCl,

    CallRel,
    CallRm,
    CallMemFar,
    JmpRel,
    JmpPtr,
    JmpShort,
    JmpRm,

    // Jcc, LOOPNZ LOOPZ LOOP JCXZ.
    ShortRel,
    IntImm,
    XlatMem,
    InAccImm,
    InAccDx,
    OutImmAcc,
    OutDxAcc,
    Aam,
    Aad,
    Ret,
    RetImm,

    // The other single bytes.
    Single,
}

// What a group decides: the line of the form that a record takes, and its size (Word where the line has none). In 000 each group calls
// emit_codes itself.
#[derive(Clone, Copy, Debug, PartialEq, Eq)]
pub struct Decision {
    pub line: Line,
    pub size: DataSize,
}

// A line without a size.
pub fn plain(line: Line) -> Decision
    ensures { result ≡ plain line }
{
    Decision {
        line,
        size: DataSize::Word,
    }
}

// A line without a size, or why there is none.
pub fn without_size(line: Result<Line, NoForm>) -> Result<Decision, NoForm>
    ensures { result ≡ decision line Z.Word }
{
    Ok(plain(line?))
}

// 0 for a byte, 1 for a word: the low bit of most opcodes.
fn word_bit(size: DataSize) -> u8
    ensures value { result ≡ bit size }
    ensures upper_bound { result ≤ 1 }
{
    match size {
        DataSize::Byte => 0,
        DataSize::Word => 1,
    }
}

// The code of an immediate of this size.
fn imm_code(size: DataSize) -> Code
    ensures { result ≡ immediate size }
{
    match size {
        DataSize::Byte => Code::ImmByte(FIRST_OPER_SRC),
        DataSize::Word => Code::ImmWord(FIRST_OPER_SRC),
    }
}

// An opcode so many places behind a base; the sum wraps, as 000's does.
fn opcode(base: u8, places: u8) -> u8
    ensures { result ≡ (base + places) % 256 }
{
    std::num::wrapping_add_u8(base, places)
}

// 40 for INC, 48 for DEC.
fn inc_opcode(base: u8) -> u8
    ensures { result ≡ (0x40 + 8 * base) % 256 }
{
    ((0x40 + 8 * (base as u16)) % 256) as u8
}

// A list of one code.
fn one(code: Code) -> Codes
    ensures { result ≡ one_code code }
{
    Codes {
        first: code,
        second: None,
    }
}

// A list of two codes.
fn two(first: Code, second: Code) -> Codes
    ensures { result ≡ two_codes first second }
{
    Codes {
        first,
        second: Some(second),
    }
}

// The code list of a line, with the low bit of its opcode, the code of its immediate and the base of its operation.
fn line_codes(line: Line, w: u8, imm: Code, base: u8) -> Codes
    requires { w ≤ 1 }
    ensures { result ≡ line_codes line w imm base }
{
    match line {
        Line::ArithRmReg => one(Code::ModRegRM(FIRST_OPER_DST, opcode(base, w))),
        Line::ArithRegRm => one(Code::ModRegRM(FIRST_OPER_SRC, opcode(base, 2 + w))),
        Line::ArithRmImmSx => two(
            Code::ModRM(FIRST_OPER_DST, 0x83, base / 8),
            Code::ImmSignExtended(FIRST_OPER_SRC),
        ),
        Line::ArithAccImm => two(Code::Byte(opcode(base, 4 + w)), imm),
        Line::ArithRmImm => two(Code::ModRM(FIRST_OPER_DST, 0x80 + w, base / 8), imm),
        Line::UnaryRm => one(Code::ModRM(FIRST_OPER_DST, 0xF6 + w, base)),
        Line::IncReg => one(Code::RegByte(FIRST_OPER_DST, inc_opcode(base))),
        Line::IncRm => one(Code::ModRM(FIRST_OPER_DST, 0xFE + w, base)),
        Line::MovAccMoffs => two(
            Code::MemByte(FIRST_OPER_SRC, 0xA0 + w),
            Code::DispWord(FIRST_OPER_SRC),
        ),
        Line::MovMoffsAcc => two(
            Code::MemByte(FIRST_OPER_DST, 0xA2 + w),
            Code::DispWord(FIRST_OPER_DST),
        ),
        Line::MovRmReg => one(Code::ModRegRM(FIRST_OPER_DST, 0x88 + w)),
        Line::MovRegRm => one(Code::ModRegRM(FIRST_OPER_SRC, 0x8A + w)),
        Line::MovRmSreg => one(Code::ModRegRM(FIRST_OPER_DST, 0x8C)),
        Line::MovSregRm => one(Code::ModRegRM(FIRST_OPER_SRC, 0x8E)),
        Line::MovRegImm => two(Code::RegByte(FIRST_OPER_DST, 0xB0 + 8 * w), imm),
        Line::MovRmImm => two(Code::ModRM(FIRST_OPER_DST, 0xC6 + w, 0), imm),
        Line::XchgAccReg => one(Code::RegByte(FIRST_OPER_SRC, 0x90)),
        Line::XchgRegAcc => one(Code::RegByte(FIRST_OPER_DST, 0x90)),
        Line::XchgRegRm => one(Code::ModRegRM(FIRST_OPER_SRC, 0x86 + w)),
        Line::XchgRmReg => one(Code::ModRegRM(FIRST_OPER_DST, 0x86 + w)),
        Line::TestRmReg => one(Code::ModRegRM(FIRST_OPER_DST, 0x84 + w)),
        Line::TestRegRm => one(Code::ModRegRM(FIRST_OPER_SRC, 0x84 + w)),
        Line::TestAccImm => two(Code::Byte(0xA8 + w), imm),
        Line::TestRmImm => two(Code::ModRM(FIRST_OPER_DST, 0xF6 + w, 0), imm),
        Line::PushReg => one(Code::RegByte(FIRST_OPER_DST, 0x50)),
        Line::PushSreg => one(Code::SegByte(FIRST_OPER_DST, 0x06)),
        Line::PushRm => one(Code::ModRM(FIRST_OPER_DST, 0xFF, 6)),
        Line::PopReg => one(Code::RegByte(FIRST_OPER_DST, 0x58)),
        Line::PopSreg => one(Code::SegByte(FIRST_OPER_DST, 0x07)),
        Line::PopRm => one(Code::ModRM(FIRST_OPER_DST, 0x8F, 0)),
        Line::LoadRegMem => one(Code::ModRegRM(FIRST_OPER_SRC, base)),
        Line::ShiftRmOne => one(Code::ModRM(FIRST_OPER_DST, 0xD0 + w, base)),
        Line::ShiftRmCl => one(Code::ModRM(FIRST_OPER_DST, 0xD2 + w, base)),
        Line::CallRel => two(Code::Byte(0xE8), Code::RelWord(FIRST_OPER_DST)),
        Line::CallRm => one(Code::ModRM(FIRST_OPER_DST, 0xFF, 2)),
        Line::CallMemFar => one(Code::ModRM(FIRST_OPER_DST, 0xFF, 3)),
        Line::JmpRel => two(Code::Byte(0xE9), Code::RelWord(FIRST_OPER_DST)),
        Line::JmpPtr => two(Code::Byte(0xEA), Code::FarWords(FIRST_OPER_DST)),
        Line::JmpShort => two(Code::Byte(0xEB), Code::RelByte(FIRST_OPER_DST, 2)),
        Line::JmpRm => one(Code::ModRM(FIRST_OPER_DST, 0xFF, 4)),
        Line::ShortRel => two(Code::Byte(base), Code::RelByte(FIRST_OPER_DST, 2)),
        Line::IntImm => two(Code::Byte(0xCD), Code::UnsignedByte(FIRST_OPER_DST)),
        Line::XlatMem => one(Code::MemByte(FIRST_OPER_DST, 0xD7)),
        Line::InAccImm => two(Code::Byte(0xE4 + w), Code::UnsignedByte(FIRST_OPER_SRC)),
        Line::InAccDx => one(Code::Byte(0xEC + w)),
        Line::OutImmAcc => two(Code::Byte(0xE6 + w), Code::UnsignedByte(FIRST_OPER_DST)),
        Line::OutDxAcc => one(Code::Byte(0xEE + w)),
        Line::Aam => two(Code::Byte(0xD4), Code::Byte(0x0A)),
        Line::Aad => two(Code::Byte(0xD5), Code::Byte(0x0A)),
        Line::Ret => one(Code::Byte(0xC3)),
        Line::RetImm => two(Code::Byte(0xC2), Code::UnsignedWord(FIRST_OPER_DST)),
        Line::Single => one(Code::Byte(base)),
    }
}

// The map from a form to its code list: what 000's group hands to emit_codes, or its refusal.
pub fn plan_for(decision: Result<Decision, NoForm>, base: u8) -> Result<Codes, NoForm>
    ensures { result ≡ planned decision base }
{
    let Decision { line, size } = decision?;
    Ok(line_codes(line, word_bit(size), imm_code(size), base))
}
