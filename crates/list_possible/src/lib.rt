// Which candidates can read as an instruction, by its operands' kinds and its displacement.
#![tactic(auto, unfolding(list_spec::specs::Possible::is_accumulator, list_spec::specs::Possible::is_address, list_spec::specs::Possible::mode_for, list_spec::specs::Possible::mode_fits, list_spec::specs::Possible::with_alternate, list_spec::specs::Possible::immediate_fits, list_spec::specs::Possible::arithmetic_fits, list_spec::specs::Possible::move_alternate, list_spec::specs::Possible::exchange_fits, list_spec::specs::Possible::encoding_fits, list_spec::specs::Possible::start_fits, list_spec::specs::Possible::possible))]

ghost use Rattle.std.specs.Prelude.{◌≡◌};
ghost use Rattle.list_spec.specs.Encodings.{encoding_number};
ghost use Rattle.list_spec.specs.Possible.{is_accumulator, is_address, is_word, mode_for, mode_fits, modeless, with_alternate, immediate_fits, with_register, arithmetic_fits, by_address, move_alternate, test_alternate, exchange_fits, encoding_fits, possible};

use encode_groups::Group;
use list_spec::{Candidate, Encoding, Parts};
use mrc_compiler::encoder::OperandSize;
use x86::operands::{IMMEDIATE, MEMORY, NEAR, OperandType, REGISTER, SEGMENT_REGISTER};

// AL or AX.
fn is_accumulator(oper: OperandType) -> bool
    ensures { result ≡ is_accumulator oper }
{
    oper.kind == REGISTER && oper.number == 0
}

// An address without base.
fn is_address(oper: OperandType) -> bool
    ensures { result ≡ is_address oper }
{
    oper.kind == MEMORY && oper.number == 8
}

fn is_word(width: OperandSize) -> bool
    ensures { result ≡ is_word width }
{
    matches!(width, OperandSize::Word)
}

// ---- the mode

// Of memory by its number.
fn mode_for(number: u8, parts: Parts, mode: u8) -> bool
    ensures { result ≡ mode_for number parts.zero parts.short mode }
{
    if number == 8 {
        return mode == 0;
    }
    match mode {
        0 => number != 6 && parts.zero,
        1 => parts.short,
        _ => true,
    }
}

// Of the operand in memory, if there is one.
fn mode_fits(parts: Parts, mode: u8) -> bool
    ensures { result ≡ mode_fits parts.first parts.second parts.zero parts.short mode }
{
    if parts.first.kind == MEMORY {
        return mode_for(parts.first.number, parts, mode);
    }
    if parts.second.kind == MEMORY {
        return mode_for(parts.second.number, parts, mode);
    }
    true
}

// ---- the encoding

// Without memory mode 0 stands for all.
fn is_modeless(parts: Parts, mode: u8) -> bool
    ensures { result ≡ modeless parts.first parts.second mode }
{
    parts.first.kind == MEMORY || parts.second.kind == MEMORY || mode == 0
}

// The primary encoding, and the alternate one where it may be: a fact of the operands, for which a closure would be no plainer.
fn with_alternate(may: bool, parts: Parts, candidate: Candidate) -> bool
    ensures { result ≡ with_alternate may parts.first parts.second (encoding_number candidate.encoding) candidate.mode }
{
    match candidate.encoding {
        Encoding::Primary => is_modeless(parts, candidate.mode),
        Encoding::Alternate => may && is_modeless(parts, candidate.mode),
    }
}

// Arithmetic with an immediate. Of a register's modes 0 and 1 are two starts: the accumulator's, and that of any register.
fn immediate_fits(parts: Parts, candidate: Candidate) -> bool
    ensures { result ≡ immediate_fits parts.width parts.first parts.second (encoding_number candidate.encoding) candidate.mode }
{
    if parts.first.kind == REGISTER && matches!(candidate.encoding, Encoding::Primary) {
        return match candidate.mode {
            0 => is_accumulator(parts.first),
            mode => mode == 1,
        };
    }
    with_alternate(is_word(parts.width), parts, candidate)
}

// With a register in reg.
fn with_register(reg: OperandType, parts: Parts, mode: u8) -> bool
    ensures { result ≡ with_register reg parts.first parts.second mode }
{
    reg.kind == REGISTER && is_modeless(parts, mode)
}

fn arithmetic_fits(parts: Parts, candidate: Candidate) -> bool
    ensures { result ≡ arithmetic_fits parts.width parts.first parts.second (encoding_number candidate.encoding) candidate.mode }
{
    if parts.second.kind == IMMEDIATE {
        return immediate_fits(parts, candidate);
    }
    match candidate.encoding {
        Encoding::Primary => with_register(parts.second, parts, candidate.mode),
        Encoding::Alternate => with_register(parts.first, parts, candidate.mode),
    }
}

// An address without base and the accumulator.
fn by_address(memory: OperandType, other: OperandType) -> bool
    ensures { result ≡ by_address memory other }
{
    is_address(memory) && is_accumulator(other)
}

// May MOV have its alternate encoding?
fn move_alternate(a: OperandType, b: OperandType) -> bool
    ensures { result ≡ move_alternate a b }
{
    if a.kind == MEMORY {
        return by_address(a, b);
    }
    if b.kind == MEMORY {
        return by_address(b, a);
    }
    a.kind == REGISTER && b.kind != SEGMENT_REGISTER
}

// May TEST have its alternate encoding?
fn test_alternate(a: OperandType, b: OperandType) -> bool
    ensures { result ≡ test_alternate a b }
{
    b.kind == IMMEDIATE && is_accumulator(a)
}

// Of two registers modes 0 and 1 are two starts: that of AX, and that of any register.
fn exchange_fits(parts: Parts, candidate: Candidate) -> bool
    ensures { result ≡ exchange_fits parts.width parts.first parts.second (encoding_number candidate.encoding) candidate.mode }
{
    if parts.second.kind != REGISTER {
        return with_alternate(false, parts, candidate);
    }
    match (candidate.encoding, candidate.mode) {
        (Encoding::Alternate, mode) => is_modeless(parts, mode),
        (Encoding::Primary, 0) => is_accumulator(parts.first) && is_word(parts.width),
        (Encoding::Primary, mode) => parts.first.kind == REGISTER && mode == 1,
    }
}

// By encoding and mode.
fn encoding_fits(parts: Parts, candidate: Candidate) -> bool
    ensures { result ≡ encoding_fits parts.group parts.base parts.width parts.first parts.second (encoding_number candidate.encoding) candidate.mode }
{
    let Parts { first, second, .. } = parts;
    match parts.group {
        Group::Arithmetic => arithmetic_fits(parts, candidate),
        Group::Xchg => exchange_fits(parts, candidate),
        Group::Mov => with_alternate(move_alternate(first, second), parts, candidate),
        Group::Test => with_alternate(test_alternate(first, second), parts, candidate),
        Group::IncDec => {
            let is_register = first.kind == REGISTER;
            with_alternate(is_register && is_word(parts.width), parts, candidate)
        }
        Group::Push | Group::Pop => with_alternate(first.kind != MEMORY, parts, candidate),
        Group::Jmp => with_alternate(first.kind == NEAR, parts, candidate),
        Group::NoOperands => with_alternate(parts.base == 0x90, parts, candidate),
        Group::Unary
        | Group::Ret
        | Group::Lea
        | Group::LesLds
        | Group::Shift
        | Group::Call
        | Group::Jcc
        | Group::Loopc
        | Group::Prefixes
        | Group::Int
        | Group::Aam
        | Group::Aad
        | Group::Xlat
        | Group::In
        | Group::Out
        | Group::Unsupported => with_alternate(false, parts, candidate),
    }
}

// ---- the candidate

// Can candidate i, below 12, read as an instruction with these parts? The docs name this function: it answers each u8, as `possible` does.
pub fn is_possible(parts: Parts, i: u8) -> bool
    ensures { result ≡ possible parts i }
{
    let candidate = Candidate::numbered(i);
    if candidate.prefixed && parts.prefix == 0 {
        return false;
    }
    if parts.repeat != 0 {
        return i % 6 == 0;
    }
    mode_fits(parts, candidate.mode) && encoding_fits(parts, candidate)
}
