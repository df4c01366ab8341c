// Reads one instruction at the front of some bytes: a table of 256 rows, one for each first byte, says what follows it.
#![tactic(auto)]

ghost use Rattle.std.specs.Prelude.{◌≡◌, ◌+◌, ◌≤◌, ◌<◌, eqb, length, get_or, drop, true};
ghost use Rattle.mrc_compiler.specs.declared.operations.Operation.TheVariants.{XCHG, TEST};
ghost use Rattle.mrc_compiler.specs.Choose.{pick, both, either, by_size};
ghost use Rattle.mrc_compiler.specs.Operations.{same_operation, is_string};
ghost use Rattle.x86.specs.Instructions.{memory_first, canonical};
ghost use Rattle.x86.specs.Reading.{about, at, address_length, has_second, in_memory, some, starting_with, read_form, prefix, repeats, reads};
ghost use Rattle.x86.specs.Rows.{plain, rows};
ghost use Rattle.read_table.specs.Rows.{exchanges, tests_register, extension_at, shape_form, found_of, form_at};
ghost use Rattle.reader.specs.Answer.{with_form, decoded, refusal_of};
ghost use Rattle.reader.specs.ByRow.{may_follow, decoded_shape, shape_with, decoded_opcode, decoded_plain, decoded_repeat};

use mrc_compiler::encoder::OperandSize;
use mrc_compiler::operations::Operation;
use x86::{Instruction, Operand, ReadError};
use x86_forms::{About, Class, Extension, FormName, Place, Shape, Slot};

// An instruction that stands at the front of some bytes.
#[derive(Clone, Copy, Debug, PartialEq, Eq)]
pub struct Reading {
    pub instruction: Instruction,

    // The form by which the bytes read.
    pub form: FormName,
    pub length: usize,
}

// What stands before the displacement: the segment prefix (0: none), the opcode, and the second byte (0 where there is none).
#[derive(Clone, Copy, Debug, PartialEq, Eq)]
struct Head {
    prefix: u8,
    opcode: u8,
    second: u8,
}

// May a row of this shape follow the prefix (0: none)?
fn may_follow(prefix: u8, shape: Shape) -> bool
    ensures { result ≡ may_follow prefix shape }
{
    prefix == 0
        || read_slots::may_name_memory(shape.first.about().place)
        || read_slots::may_name_memory(shape.second.about().place)
}

// May the prefix stand before slots with these places, with second byte x?
fn may_stand(prefix: u8, first: Place, second: Place, x: u8) -> bool
    ensures { result ≡ either (eqb prefix 0) (either (in_memory first x) (in_memory second x)) }
{
    prefix == 0 || read_slots::in_memory(first, x) || read_slots::in_memory(second, x)
}

// The bytes of opcode and second byte.
fn opcode_length(class: Class) -> usize
    ensures { result ≡ pick (has_second (extension_at class)) 2 1 }
{
    if read_table::has_second(class) { 2 } else { 1 }
}

// Prefix, opcode and second byte.
fn head_length(prefix: u8, class: Class) -> usize
    ensures value { result ≡ pick (eqb prefix 0) 0 1 + pick (has_second (extension_at class)) 2 1 }
    ensures small { result ≤ 3 }
{
    let n = opcode_length(class);
    if prefix == 0 { n } else { 1 + n }
}

// The displacement or address.
fn memory_length(first: Place, second: Place, x: u8) -> usize
    ensures value { result ≡ address_length first x + address_length second x }
    ensures small { result ≤ 510 }
{
    let a = read_slots::address_length(first, x);
    let b = read_slots::address_length(second, x);
    (a as usize) + (b as usize)
}

// The form's width: what its first slot states, or else its second.
fn width_of(first: OperandSize, second: OperandSize) -> OperandSize
    ensures { result ≡ by_size first second first first }
{
    match first {
        OperandSize::Unspecified => second,
        OperandSize::Byte => OperandSize::Byte,
        OperandSize::Word => OperandSize::Word,
    }
}

// Operation, width and operands in the one form that all the same instructions have.
fn settled(c: u8, operation: Operation, width: OperandSize, a: Operand, b: Operand) -> Instruction
    requires { (same_operation operation XCHG ≡ exchanges c) × (both (same_operation operation TEST) (memory_first a b) ≡ both (tests_register c) (memory_first a b)) × (pick (tests_register c) (same_operation operation TEST) true ≡ true) }
    ensures { result ≡ canonical operation width a b }
{
    if read_table::is_exchange(c) {
        return read_slots::exchange(operation, width, a, b);
    }
    if read_table::tests_register(c) {
        return read_slots::register_first(operation, width, a, b);
    }
    Instruction {
        repeat: 0,
        operation,
        width,
        first: a,
        second: b,
    }
}

// The instruction of an operation, a width and two slots; its memory bytes are the first of t, and the immediate what follows them.
fn instruction_at(
    operation: Operation,
    width: OperandSize,
    first: Slot,
    second: Slot,
    head: Head,
    next: u32,
    memory: usize,
    t: &[u8],
) -> Instruction
    requires { (same_operation operation XCHG ≡ exchanges head.opcode) × (both (same_operation operation TEST) (eqb (about second).takes 0) ≡ tests_register head.opcode) × (memory ≤ length t.now) }
    ensures { result ≡ canonical operation width (at first head.prefix head.opcode head.second next t.now (drop memory t.now)) (at second head.prefix head.opcode head.second next t.now (drop memory t.now)) }
{
    let a = read_slots::operand_at(
        first,
        head.prefix,
        head.opcode,
        head.second,
        next,
        t,
        &t[memory..],
    );
    let b = read_slots::operand_at(
        second,
        head.prefix,
        head.opcode,
        head.second,
        next,
        t,
        &t[memory..],
    );
    settled(head.opcode, operation, width, a, b)
}

// The bytes t behind opcode and second byte, read by a shape with an operation; a and b are what is known of its slots.
fn read_form(
    shape: Shape,
    a: About,
    b: About,
    operation: Operation,
    head: Head,
    offset: u16,
    t: &[u8],
) -> Result<Reading, ReadError>
    requires { (same_operation operation XCHG ≡ exchanges head.opcode) × (both (same_operation operation TEST) (eqb (about shape.second).takes 0) ≡ tests_register head.opcode) × (a ≡ about shape.first) × (b ≡ about shape.second) }
    ensures { result ≡ with_form (read_form offset head.prefix head.opcode head.second t.now (shape_form shape operation)) (form_at shape.class head.opcode head.second) }
{
    if !may_stand(head.prefix, a.place, b.place, head.second) {
        return Err(ReadError::NotAnInstruction);
    }
    let memory = memory_length(a.place, b.place, head.second);
    let tail = memory + ((a.takes as usize) + (b.takes as usize));
    if t.len() < tail {
        return Err(ReadError::NotComplete);
    }
    let length = head_length(head.prefix, shape.class) + tail;
    let next = (offset as u32) + (length as u32);
    let width = width_of(a.width, b.width);
    let instruction = instruction_at(
        operation,
        width,
        shape.first,
        shape.second,
        head,
        next,
        memory,
        t,
    );
    Ok(Reading {
        instruction,
        form: read_table::form_at(shape.class, head.opcode, head.second),
        length,
    })
}

// The same, with the operation that first and second byte have.
fn read_shape(shape: Shape, head: Head, offset: u16, t: &[u8]) -> Result<Reading, ReadError>
    requires { shape ≡ shape_with (get_or rows head.opcode 0) head.second }
    ensures { result ≡ decoded_shape offset head.prefix shape head.opcode head.second t.now }
{
    let a = shape.first.about();
    let b = shape.second.about();
    match read_table::found_at(
        shape.class,
        a.restriction,
        b.restriction,
        head.opcode,
        head.second,
    ) {
        None => Err(ReadError::NotAnInstruction),
        Some(operation) => read_form(shape, a, b, operation, head, offset, t),
    }
}

// The second byte, 0 where the class has none.
fn second_byte(class: Class, s: &[u8]) -> u8
    ensures { result ≡ pick (has_second (extension_at class)) (get_or s.now 1 0) 0 }
{
    if read_table::has_second(class) {
        read_slots::byte_at(s, 1)
    } else {
        0
    }
}

// The shape in a row with second byte x, where this is the one with 0: they differ in three rows.
fn shape_with(row: u8, shape: Shape, x: u8) -> Shape
    requires { shape ≡ shape_with row 0 }
    ensures { result ≡ shape_with row x }
{
    if row < 45 {
        shape
    } else {
        read_shapes::shape_of(read_table::shape_row(row, x))
    }
}

// The bytes behind the prefix (0: none).
fn read_opcode(prefix: u8, s: &[u8], offset: u16) -> Result<Reading, ReadError>
    ensures { result ≡ decoded_opcode offset prefix s.now }
{
    if s.is_empty() {
        return Err(ReadError::NotComplete);
    }
    let opcode = s[0];
    let row = read_table::row_of(opcode);
    if row == 0 {
        return Err(ReadError::NotAnInstruction);
    }
    let shape = read_shapes::shape_of(read_table::shape_row(row, 0));
    if !may_follow(prefix, shape) {
        return Err(ReadError::NotAnInstruction);
    }
    let from = opcode_length(shape.class);
    if s.len() < from {
        return Err(ReadError::NotComplete); // the second byte is to come
    }
    let second = second_byte(shape.class, s);
    let head = Head {
        prefix,
        opcode,
        second,
    };
    read_shape(shape_with(row, shape, second), head, offset, &s[from..])
}

// Is it a segment prefix?
#[tactic(auto, unfolding(x86::specs::Reading::prefix))]
fn is_prefix(b: u8) -> bool
    ensures { result ≡ prefix b }
{
    matches!(b, 0x26 | 0x2E | 0x36 | 0x3E)
}

// The prefix that a first byte is, 0 where it is none: so the definitions of the reading take it (read_opcode, x86, specs/Reading).
pub fn prefix_of(b: u8) -> u8
    ensures { result ≡ pick (prefix b) b 0 }
{
    if is_prefix(b) { b } else { 0 }
}

// Where the opcode stands behind a first byte.
pub fn opcode_start(b: u8) -> usize
    ensures value { result ≡ pick (prefix b) 1 0 }
    ensures small { result ≤ 1 }
{
    if is_prefix(b) { 1 } else { 0 }
}

// The bytes read as if F2 and F3 were always instructions of their own.
fn read_plain(bytes: &[u8], offset: u16) -> Result<Reading, ReadError>
    ensures { result ≡ decoded_plain offset bytes.now }
{
    if bytes.is_empty() {
        return Err(ReadError::NotComplete);
    }
    let b = bytes[0];
    read_opcode(prefix_of(b), &bytes[opcode_start(b)..], offset)
}

// A4 to A7, AA to AF.
fn begins_string(c: u8) -> bool
    ensures { result ≡ some (λ f. is_string f.operation) (starting_with c) }
{
    if c < 0xA4 {
        return false;
    }
    if c < 0xA8 {
        return true;
    }
    if c < 0xAA {
        return false;
    }
    c < 0xB0
}

// Do the bytes begin with F2 or F3 and a string operation?
fn repeats_string(bytes: &[u8]) -> bool
    ensures { result ≡ repeats bytes.now }
{
    if bytes.len() < 2 {
        return false;
    }
    x86::is_repeat(bytes[0]) && begins_string(bytes[1])
}

// The string operation c. Not by the table: a second caller of its search would make every read slower.
fn string_operation(c: u8) -> Operation
    requires { some (λ f. is_string f.operation) (starting_with c) ≡ true }
    ensures { found_of plain c 0 ≡ Some result }
{
    match c {
        0xA4 => Operation::MOVSB,
        0xA5 => Operation::MOVSW,
        0xA6 => Operation::CMPSB,
        0xA7 => Operation::CMPSW,
        0xAA => Operation::STOSB,
        0xAB => Operation::STOSW,
        0xAC => Operation::LODSB,
        0xAD => Operation::LODSW,
        0xAE => Operation::SCASB,
        _ => Operation::SCASW,
    }
}

// The string operation c, which is one byte, behind its repeat.
fn read_repeated(repeat: u8, c: u8) -> Result<Reading, ReadError>
    requires { some (λ f. is_string f.operation) (starting_with c) ≡ true }
    ensures { result ≡ decoded_repeat repeat c }
{
    let operation = string_operation(c);
    Ok(Reading {
        instruction: Instruction {
            repeat,
            operation,
            width: OperandSize::Unspecified,
            first: Operand::None,
            second: Operand::None,
        },
        form: FormName {
            opcode: c,
            extension: Extension::None,
        },
        length: 2,
    })
}

// What stands at the front of the bytes, with the form by which it reads; near targets are for this offset.
pub fn read(bytes: &[u8], offset: u16) -> Result<Reading, ReadError>
    ensures { result ≡ decoded offset bytes.now }
{
    if repeats_string(bytes) {
        return read_repeated(bytes[0], bytes[1]);
    }
    read_plain(bytes, offset)
}

// The same without the form.
pub fn read_at(bytes: &[u8], offset: u16) -> Result<(Instruction, usize), ReadError>
    ensures { result ≡ reads offset bytes.now }
{
    let reading = read(bytes, offset)?;
    Ok((reading.instruction, reading.length))
}

// Document 01's number, where the bytes are refused.
pub fn refusal(reading: Result<Reading, ReadError>) -> Option<u8>
    ensures { result ≡ refusal_of reading }
{
    match reading {
        Ok(_) => None,
        Err(error) => Some(error.number()),
    }
}
