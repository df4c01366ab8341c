// The starts of an instruction's strings, group by group of document 01's code list.
#![tactic(auto, unfolding(list_spec::specs::Starts::arithmetic_immediate, list_spec::specs::Starts::arithmetic, list_spec::specs::Starts::unary, list_spec::specs::Starts::inc_dec, list_spec::specs::Starts::move_immediate, list_spec::specs::Starts::move_from, list_spec::specs::Starts::move_into, list_spec::specs::Starts::exchange, list_spec::specs::Starts::test_immediate, list_spec::specs::Starts::test, list_spec::specs::Starts::stack, list_spec::specs::Starts::ret, list_spec::specs::Starts::load, list_spec::specs::Starts::shift, list_spec::specs::Starts::call, list_spec::specs::Starts::jump, list_spec::specs::Starts::single, list_spec::specs::Starts::port, list_spec::specs::Starts::start_in, list_spec::specs::Starts::start_of))]

ghost use Rattle.std.specs.Prelude.{◌≡◌, Some, None};
ghost use Rattle.list_spec.specs.declared.Second.TheVariants.{Fixed};
ghost use Rattle.list_spec.specs.Encodings.{encoding_number};
ghost use Rattle.list_spec.specs.Starts.{start, bare, sized, immediate, plus, modrm, with_rm, arithmetic_immediate, arithmetic, unary, inc_dec, move_immediate, move_from, move_into, move, exchange, test_immediate, test, stack, ret, load, shift, call, jump, single, port, start_of};

use encode_groups::Group;
use list_spec::{Candidate, Encoding, Parts, Second, Start, Tail};
use mrc_compiler::encoder::OperandSize;
use x86::operands::{FAR, IMMEDIATE, MEMORY, NEAR, OperandType, REGISTER, SEGMENT_REGISTER};

// The opcode of a width.
fn sized_opcode(width: OperandSize, byte: u8, word: u8) -> u8
    ensures { result ≡ sized width byte word }
{
    match width {
        OperandSize::Unspecified | OperandSize::Byte => byte,
        OperandSize::Word => word,
    }
}

// The immediate of a width.
fn immediate_tail(width: OperandSize) -> Option<Tail>
    ensures { result ≡ immediate width }
{
    match width {
        OperandSize::Unspecified | OperandSize::Byte => Some(Tail::Byte),
        OperandSize::Word => Some(Tail::Word),
    }
}

// No second byte.
fn bare_start(opcode: u8, tail: Option<Tail>) -> Start
    ensures { result ≡ bare opcode tail }
{
    Start {
        opcode,
        second: None,
        tail,
    }
}

// ModRM with reg in its reg field and the operand in r/m: a register, or memory in mode 0, 1 or 2.
fn modrm_byte(reg: u8, oper: OperandType, mode: u8) -> u8
    ensures { result ≡ modrm reg oper mode }
{
    let n = oper.number;
    let rm = if oper.kind != MEMORY {
        192 + n % 8
    } else if n == 8 {
        6
    } else {
        mode % 3 * 64 + n % 8
    };
    reg % 8 * 8 + rm
}

// An opcode with that ModRM.
fn start_with_rm(opcode: u8, reg: u8, oper: OperandType, mode: u8, tail: Option<Tail>) -> Start
    ensures { result ≡ with_rm opcode reg oper mode tail }
{
    Start {
        opcode,
        second: Some(Second::ModRm(modrm_byte(reg, oper, mode))),
        tail,
    }
}

// ADD OR ADC SBB AND SUB XOR CMP with an immediate.
fn arithmetic_immediate(parts: Parts, candidate: Candidate) -> Start
    ensures { result ≡ arithmetic_immediate parts.base parts.width parts.first (encoding_number candidate.encoding) candidate.mode }
{
    let Parts {
        base,
        width,
        first,
        ..
    } = parts;
    let mode = candidate.mode;
    match candidate.encoding {
        Encoding::Primary => {
            if first.kind == REGISTER && mode == 0 {
                return bare_start(
                    sized_opcode(width, base.wrapping_add(4), base.wrapping_add(5)),
                    immediate_tail(width),
                );
            }
            start_with_rm(
                sized_opcode(width, 0x80, 0x81),
                base / 8,
                first,
                mode,
                immediate_tail(width),
            )
        }
        Encoding::Alternate => start_with_rm(0x83, base / 8, first, mode, Some(Tail::Byte)),
    }
}

// ADD OR ADC SBB AND SUB XOR CMP.
fn start_arithmetic(parts: Parts, candidate: Candidate) -> Start
    ensures { result ≡ arithmetic parts.base parts.width parts.first parts.second (encoding_number candidate.encoding) candidate.mode }
{
    let Parts {
        base,
        width,
        first,
        second,
        ..
    } = parts;
    let mode = candidate.mode;
    if second.kind == IMMEDIATE {
        return arithmetic_immediate(parts, candidate);
    }
    match candidate.encoding {
        Encoding::Primary => start_with_rm(
            sized_opcode(width, base, base.wrapping_add(1)),
            second.number,
            first,
            mode,
            None,
        ),
        Encoding::Alternate => start_with_rm(
            sized_opcode(width, base.wrapping_add(2), base.wrapping_add(3)),
            first.number,
            second,
            mode,
            None,
        ),
    }
}

// NOT NEG MUL IMUL DIV IDIV.
fn start_unary(parts: Parts, mode: u8) -> Start
    ensures { result ≡ unary parts.base parts.width parts.first mode }
{
    start_with_rm(
        sized_opcode(parts.width, 0xF6, 0xF7),
        parts.base,
        parts.first,
        mode,
        None,
    )
}

// INC DEC.
fn start_inc_dec(parts: Parts, candidate: Candidate) -> Start
    ensures { result ≡ inc_dec parts.base parts.width parts.first (encoding_number candidate.encoding) candidate.mode }
{
    let Parts {
        base,
        width,
        first,
        ..
    } = parts;
    match candidate.encoding {
        Encoding::Primary => {
            start_with_rm(
                sized_opcode(width, 0xFE, 0xFF),
                base,
                first,
                candidate.mode,
                None,
            )
        }
        Encoding::Alternate => bare_start(0x40 + base % 2 * 8 + first.number % 8, None),
    }
}

// MOV of an immediate.
fn move_immediate(parts: Parts, candidate: Candidate) -> Start
    ensures { result ≡ move_immediate parts.width parts.first (encoding_number candidate.encoding) candidate.mode }
{
    let Parts { width, first, .. } = parts;
    let tail = immediate_tail(width);
    match candidate.encoding {
        Encoding::Primary => {
            start_with_rm(
                sized_opcode(width, 0xC6, 0xC7),
                0,
                first,
                candidate.mode,
                tail,
            )
        }
        Encoding::Alternate => {
            let n = first.number % 8;
            bare_start(sized_opcode(width, 0xB0 + n, 0xB8 + n), tail)
        }
    }
}

// MOV from memory.
fn move_from(parts: Parts, candidate: Candidate) -> Start
    ensures { result ≡ move_from parts.width parts.first parts.second (encoding_number candidate.encoding) candidate.mode }
{
    let Parts {
        width,
        first,
        second,
        ..
    } = parts;
    match candidate.encoding {
        Encoding::Primary => start_with_rm(
            sized_opcode(width, 0x8A, 0x8B),
            first.number,
            second,
            candidate.mode,
            None,
        ),
        Encoding::Alternate => bare_start(sized_opcode(width, 0xA0, 0xA1), Some(Tail::Address)),
    }
}

// MOV into memory, or between registers.
fn move_into(parts: Parts, candidate: Candidate) -> Start
    ensures { result ≡ move_into parts.width parts.first parts.second (encoding_number candidate.encoding) candidate.mode }
{
    let Parts {
        width,
        first,
        second,
        ..
    } = parts;
    let mode = candidate.mode;
    match candidate.encoding {
        Encoding::Primary => {
            start_with_rm(
                sized_opcode(width, 0x88, 0x89),
                second.number,
                first,
                mode,
                None,
            )
        }
        Encoding::Alternate if first.kind == MEMORY => {
            bare_start(sized_opcode(width, 0xA2, 0xA3), Some(Tail::Address))
        }
        Encoding::Alternate => {
            start_with_rm(
                sized_opcode(width, 0x8A, 0x8B),
                first.number,
                second,
                mode,
                None,
            )
        }
    }
}

// MOV.
fn start_move(parts: Parts, candidate: Candidate) -> Start
    ensures { result ≡ move parts.width parts.first parts.second (encoding_number candidate.encoding) candidate.mode }
{
    let Parts { first, second, .. } = parts;
    if second.kind == IMMEDIATE {
        return move_immediate(parts, candidate);
    }
    if second.kind == SEGMENT_REGISTER {
        return start_with_rm(0x8C, second.number, first, candidate.mode, None);
    }
    if first.kind == SEGMENT_REGISTER {
        return start_with_rm(0x8E, first.number, second, candidate.mode, None);
    }
    if second.kind == MEMORY {
        return move_from(parts, candidate);
    }
    move_into(parts, candidate)
}

// XCHG: either operand in reg; 90 with the higher register.
fn start_exchange(parts: Parts, candidate: Candidate) -> Start
    ensures { result ≡ exchange parts.width parts.first parts.second (encoding_number candidate.encoding) candidate.mode }
{
    let Parts { first, second, .. } = parts;
    let mode = candidate.mode;
    let opcode = sized_opcode(parts.width, 0x86, 0x87);
    match candidate.encoding {
        Encoding::Primary if second.kind == REGISTER && mode == 0 => {
            bare_start(0x90 + second.number % 8, None)
        }
        Encoding::Primary => start_with_rm(opcode, first.number, second, mode, None),
        Encoding::Alternate => start_with_rm(opcode, second.number, first, mode, None),
    }
}

// TEST of an immediate: F6, F7 and the accumulator's form.
fn test_immediate(parts: Parts, candidate: Candidate) -> Start
    ensures { result ≡ test_immediate parts.width parts.first (encoding_number candidate.encoding) candidate.mode }
{
    let Parts { width, first, .. } = parts;
    let tail = immediate_tail(width);
    match candidate.encoding {
        Encoding::Primary => {
            start_with_rm(
                sized_opcode(width, 0xF6, 0xF7),
                0,
                first,
                candidate.mode,
                tail,
            )
        }
        Encoding::Alternate => bare_start(sized_opcode(width, 0xA8, 0xA9), tail),
    }
}

// TEST: of two registers the second in reg; memory stands second.
fn start_test(parts: Parts, candidate: Candidate) -> Start
    ensures { result ≡ test parts.width parts.first parts.second (encoding_number candidate.encoding) candidate.mode }
{
    let Parts { first, second, .. } = parts;
    let mode = candidate.mode;
    let opcode = sized_opcode(parts.width, 0x84, 0x85);
    match second.kind {
        IMMEDIATE => test_immediate(parts, candidate),
        MEMORY => start_with_rm(opcode, first.number, second, mode, None),
        _ => start_with_rm(opcode, second.number, first, mode, None),
    }
}

// PUSH and POP: the opcodes for a register and for a segment register; the one with a digit for a register or memory.
fn start_stack(
    register: u8,
    segment: u8,
    opcode: u8,
    digit: u8,
    oper: OperandType,
    candidate: Candidate,
) -> Start
    ensures { result ≡ stack register segment opcode digit oper (encoding_number candidate.encoding) candidate.mode }
{
    let n = oper.number;
    match candidate.encoding {
        Encoding::Primary => start_with_rm(opcode, digit, oper, candidate.mode, None),
        Encoding::Alternate if oper.kind == REGISTER => {
            bare_start(register.wrapping_add(n % 8), None)
        }
        Encoding::Alternate => bare_start(segment.wrapping_add(n % 4 * 8), None),
    }
}

// RET, with an immediate or without.
fn start_ret(oper: OperandType) -> Start
    ensures { result ≡ ret oper }
{
    if oper.kind == IMMEDIATE {
        bare_start(0xC2, Some(Tail::Word))
    } else {
        bare_start(0xC3, None)
    }
}

// LEA LES LDS.
fn start_load(parts: Parts, mode: u8) -> Start
    ensures { result ≡ load parts.base parts.first parts.second mode }
{
    start_with_rm(parts.base, parts.first.number, parts.second, mode, None)
}

// ROL ROR RCL RCR SHL SHR SAR, by CL or by 1.
fn start_shift(parts: Parts, mode: u8) -> Start
    ensures { result ≡ shift parts.base parts.width parts.first parts.second mode }
{
    let opcode = if parts.second.kind == REGISTER {
        sized_opcode(parts.width, 0xD2, 0xD3)
    } else {
        sized_opcode(parts.width, 0xD0, 0xD1)
    };
    start_with_rm(opcode, parts.base, parts.first, mode, None)
}

// CALL: through memory near at the width of a word, far without a width.
fn start_call(parts: Parts, mode: u8) -> Start
    ensures { result ≡ call parts.width parts.first mode }
{
    if parts.first.kind == NEAR {
        return bare_start(0xE8, Some(Tail::Near16));
    }
    start_with_rm(
        0xFF,
        sized_opcode(parts.width, 3, 2),
        parts.first,
        mode,
        None,
    )
}

// JMP.
fn start_jump(oper: OperandType, candidate: Candidate) -> Start
    ensures { result ≡ jump oper (encoding_number candidate.encoding) candidate.mode }
{
    match (oper.kind, candidate.encoding) {
        (NEAR, Encoding::Primary) => bare_start(0xE9, Some(Tail::Near16)),
        (NEAR, Encoding::Alternate) => bare_start(0xEB, Some(Tail::Near8)),
        (FAR, _) => bare_start(0xEA, Some(Tail::Far)),
        _ => start_with_rm(0xFF, 4, oper, candidate.mode, None),
    }
}

// A single byte; NOP is 87 C0 too.
fn start_single(opcode: u8, encoding: Encoding) -> Start
    ensures { result ≡ single opcode (encoding_number encoding) }
{
    match encoding {
        Encoding::Primary => bare_start(opcode, None),
        Encoding::Alternate => Start {
            opcode: 0x87,
            second: Some(Second::ModRm(0xC0)),
            tail: None,
        },
    }
}

// IN and OUT: the port is an immediate or DX.
fn start_port(
    width: OperandSize,
    oper: OperandType,
    byte: u8,
    word: u8,
    byte_dx: u8,
    word_dx: u8,
) -> Start
    ensures { result ≡ port width oper byte word byte_dx word_dx }
{
    if oper.kind == IMMEDIATE {
        bare_start(sized_opcode(width, byte, word), Some(Tail::Byte))
    } else {
        bare_start(sized_opcode(width, byte_dx, word_dx), None)
    }
}

// AAM AAD.
fn start_adjust(opcode: u8) -> Start
    ensures { result ≡ start opcode (Some (Fixed 0x0A)) None }
{
    Start {
        opcode,
        second: Some(Second::Fixed(0x0A)),
        tail: None,
    }
}

// The start of an instruction's candidate.
pub fn start_of(parts: Parts, candidate: Candidate) -> Start
    ensures { result ≡ start_of parts (encoding_number candidate.encoding) candidate.mode }
{
    let Parts {
        base,
        width,
        first,
        second,
        ..
    } = parts;
    let mode = candidate.mode;
    match parts.group {
        Group::Arithmetic => start_arithmetic(parts, candidate),
        Group::Unary => start_unary(parts, mode),
        Group::Mov => start_move(parts, candidate),
        Group::Test => start_test(parts, candidate),
        Group::Xchg => start_exchange(parts, candidate),
        Group::IncDec => start_inc_dec(parts, candidate),
        Group::Push => start_stack(0x50, 0x06, 0xFF, 6, first, candidate),
        Group::Pop => start_stack(0x58, 0x07, 0x8F, 0, first, candidate),
        Group::Ret => start_ret(first),
        Group::Lea | Group::LesLds => start_load(parts, mode),
        Group::Shift => start_shift(parts, mode),
        Group::Call => start_call(parts, mode),
        Group::Jmp => start_jump(first, candidate),
        Group::Jcc | Group::Loopc => bare_start(base, Some(Tail::Near8)),
        Group::NoOperands => start_single(base, candidate.encoding),
        Group::Prefixes => bare_start(base, None),
        Group::Int => bare_start(0xCD, Some(Tail::Byte)),
        Group::Aam => start_adjust(0xD4),
        Group::Aad => start_adjust(0xD5),
        Group::Xlat => bare_start(0xD7, None),
        Group::In => start_port(width, second, 0xE4, 0xE5, 0xEC, 0xED),
        Group::Out => start_port(width, first, 0xE6, 0xE7, 0xEE, 0xEF),
        Group::Unsupported => bare_start(0, None),
    }
}
