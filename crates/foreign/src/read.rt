// The instruction at the front of some bytes.
ghost use Rattle.std.specs.Prelude.{◌≡◌, ◌+◌, ◌*◌, ◌≤◌, ◌++◌, length, drop};
ghost use Rattle.reader.specs.Answer.{decoded};
ghost use Rattle.foreign_report.specs.Crossing.{three_bytes};
ghost use Rattle.foreign.specs.ReadBytes.{segment_in, extension_number, head_of, operand_head, operand_values, read_bytes, read_number, read_after};

use fast_reader::Words;
use foreign_report::put_three;
use mrc_compiler::ast::Segment;
use x86::{Instruction, Operand};
use x86_forms::{Extension, FormName};

// The segment in effect of memory.
fn segment_in(oper: Operand) -> u8
    ensures { result ≡ segment_in oper }
{
    match oper {
        Operand::None => 0,
        Operand::Register(_) => 0,
        Operand::SegmentRegister(_) => 0,
        Operand::Memory(_, _, segment) => match segment {
            Segment::ES => 0,
            Segment::CS => 1,
            Segment::SS => 2,
            Segment::DS => 3,
        },
        Operand::Immediate(_) => 0,
        Operand::Near(_) => 0,
        Operand::Far(_, _) => 0,
        Operand::One => 0,
    }
}

fn extension_number(extension: Extension) -> u8
    ensures { result ≡ extension_number extension }
{
    match extension {
        Extension::None => 0,
        Extension::PlusRegister => 1,
        Extension::PlusSegment => 2,
        Extension::ModRm => 3,
        Extension::Second0A => 4,
        Extension::Digit(n) => std::num::wrapping_add_u8(8, n),
    }
}

fn head_of(insn: Instruction, form: FormName, n: usize) -> u32
    ensures { result ≡ head_of insn form n }
{
    let operation = insn.operation;
    let width = insn.width;
    let opcode = form.opcode;
    let number = operation.number();
    let size = x86::operands::size_number(width);
    (n % 256) as u32 + 256 * (number as u32 + 256 * (size as u32 + 256 * (opcode as u32)))
}

// The form's extension, and the repeat.
fn extension_word(extension: Extension, repeat: u8) -> u32
    ensures { result ≡ extension_number extension + 256 * repeat }
{
    let number = extension_number(extension);
    number as u32 + 256 * (repeat as u32)
}

fn operand_head(oper: Operand) -> u32
    ensures { result ≡ operand_head oper }
{
    let operand_type = x86::operands::type_of(oper);
    let segment = segment_in(oper);
    operand_type.kind as u32 + 256 * (operand_type.number as u32 + 256 * (segment as u32))
}

fn operand_values(oper: Operand) -> u32
    ensures { result ≡ operand_values oper }
{
    let displacement = x86::operands::displacement_in(oper);
    let value = x86::operands::value_in(oper);
    let far = x86::operands::far_segment_in(oper);
    std::num::wrapping_add_u16(displacement, value) as u32 + 65536 * (far as u32)
}

// Writes an instruction to the front of out.
fn write_read(insn: Instruction, form: FormName, n: usize, out: &mut [u8])
    requires { 24 ≤ length out.old }
    ensures { out.new ≡ read_bytes insn form n ++ drop 24 out.old }
{
    let extension = form.extension;
    let first = insn.first;
    let second = insn.second;
    let head = head_of(insn, form, n);
    let digit = extension_word(extension, insn.repeat);
    let a = operand_head(first);
    let b = operand_values(first);
    let c = operand_head(second);
    let d = operand_values(second);
    put_three(out, 0, head, digit, a);
    put_three(out, 12, b, c, d)
}

// Writes the words of one.
fn write_words(words: Words, out: &mut [u8])
    requires { 24 ≤ length out.old }
    ensures { out.new ≡ (three_bytes words.head words.extension words.a ++ three_bytes words.b words.c words.d) ++ drop 24 out.old }
{
    put_three(out, 0, words.head, words.extension, words.a);
    put_three(out, 12, words.b, words.c, words.d)
}

// Reads one instruction at the front of bytes; what follows it is not looked at, but for the byte behind F2 or F3: they belong to a string operation.
//   offset   where the bytes stand: near targets are answered for it
//   out      gets, where it has 24 bytes and an instruction is read: length, operation (its number in a show file), width (0 none, 1 byte, 2
//            word), the form's opcode, its extension (0 none, 1 +r, 2 +s, 3 /r, 4 a second byte 0A, 8 + n for /n), its repeat (0, F2 or F3), two zeros; then for each of
//            two operands: kind (0 none, 1 register, 2 segment register, 3 memory, 4 immediate, 5 near target, 6 far target, 7 a shift's count of
//            1), number (the register's, or the base: the r/m number of the address, 8 for none), the segment of memory (0 ES, 1 CS, 2 SS, 3
//            DS), zero, displacement, immediate or target (u16), a far target's segment (u16). Its later bytes stay
//   answer   0, or 10 where no instruction begins so, or 11 where one is not complete yet; out then stays as it was
pub fn fsq_read(bytes: &[u8], offset: u16, out: &mut [u8]) -> u8
    ensures value { result ≡ read_number (decoded offset bytes.now) }
    ensures out_after { out.new ≡ read_after (decoded offset bytes.now) out.old }
{
    let words = fast_reader::words_at(bytes, offset);
    if 0 < words.head {
        if out.len() < 24 {
            return 0;
        }
        write_words(words, out);
        return 0;
    }
    let read = reader::read(bytes, offset);
    match read {
        Ok(reading) => {
            if out.len() < 24 {
                return 0;
            }
            write_read(reading.instruction, reading.form, reading.length, out);
            0
        },
        Err(error) => error.number(),
    }
}
