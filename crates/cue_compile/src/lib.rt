// Compiles a list of cues to the image of a field module (REFERENCE 14).
#![tactic(auto)]

ghost use Rattle.std.specs.Prelude.{◌≡◌, true, ◌++◌, ◌+◌, ◌%◌, ◌<◌, ◌≤◌, pos, length, take, drop};
ghost use Rattle.mrc_compiler.specs.Builders.{immediate_operand};
ghost use Rattle.encode_spec.specs.Answer.{answer};
ghost use Rattle.cue_compile.specs.Cues.{cue_at, cues_in, is_cue_list, some_without};
ghost use Rattle.cue_compile.specs.Program.{no_span, move_delay, loop_to, move_mask, output, halt, of_cue, given, assembled, image_of};
ghost use Rattle.cue_compile.specs.Compiling.{number_of, compiled, image_after};

use mrc_compiler::ast::{ByteRegister, Span, WordRegister};
use mrc_compiler::encoder::{InstructionData, OperandData, OperandSize};
use mrc_compiler::operations::Operation;

// Switch a port to a mask after a delay.
#[derive(Clone, Copy, Debug, PartialEq, Eq)]
pub struct Cue {
    pub delay: u16,
    pub port: u8,
    pub mask: u8,
}

#[derive(Clone, Copy, Debug, PartialEq, Eq)]
pub enum CueError {
    // 19: no multiple of four bytes, or more than 200 cues.
    WrongLength,

    // 20.
    NoDelay,

    // 9.
    ImageTooShort,
}

impl CueError {
    // Document 02's number.
    pub fn number(self) -> u8
        ensures { result ≡ number_of self }
    {
        match self {
            CueError::WrongLength => 19,
            CueError::NoDelay => 20,
            CueError::ImageTooShort => 9,
        }
    }
}

const CUE_LENGTH: usize = 4;

const MOST_CUES: usize = 200;

// The bytes of a cue's instructions, and of HLT.
const CUE_CODE: usize = 9;

const HALT_CODE: usize = 1;

// There is no source text.
fn no_span() -> Span
    ensures { result ≡ no_span }
{
    Span { start: 0, end: 0 }
}

fn value_of(n: u16) -> OperandData
    ensures { result ≡ immediate_operand no_span (pos n) }
{
    OperandData::immediate(no_span(), n as i32)
}

// MOV CX,delay.
fn move_delay(delay: u16) -> InstructionData
    ensures { result ≡ move_delay delay }
{
    let span = no_span();
    let cx = OperandData::register(span, WordRegister::Cx.encoding(), OperandSize::Word);
    InstructionData::dst_and_src(span, Operation::MOV, cx, value_of(delay))
}

// LOOP to an offset.
fn loop_to(at: u16) -> InstructionData
    ensures { result ≡ loop_to at }
{
    InstructionData::dst(no_span(), Operation::LOOP, value_of(at))
}

// MOV AL,mask.
fn move_mask(mask: u8) -> InstructionData
    ensures { result ≡ move_mask mask }
{
    let span = no_span();
    let al = OperandData::register(span, ByteRegister::Al.encoding(), OperandSize::Byte);
    InstructionData::dst_and_src(span, Operation::MOV, al, value_of(mask as u16))
}

// OUT port,AL.
fn output_to(port: u8) -> InstructionData
    ensures { result ≡ output port }
{
    let span = no_span();
    let al = OperandData::register(span, ByteRegister::Al.encoding(), OperandSize::Byte);
    InstructionData::dst_and_src(span, Operation::OUT, value_of(port as u16), al)
}

fn halts() -> InstructionData
    ensures { result ≡ halt }
{
    InstructionData::none(no_span(), Operation::HLT)
}

// A record's bytes into the part of the image that starts at its offset; where they end.
fn place(insn: InstructionData, at: usize, image: &mut [u8]) -> usize
    requires { (at < 65536) × (at + length (given (answer insn at)) ≤ length image.old) }
    ensures value { result ≡ at + length (given (answer insn at)) }
    ensures image_after { image.new ≡ take at image.old ++ (given (answer insn at) ++ drop (at + length (given (answer insn at))) image.old) }
{
    let offset = at as u16;
    let part = &mut image[at..];
    let written = encoder::encode(insn, offset, part);
    match written {
        Ok(n) => at + n,
        Err(_) => at,
    }
}

// The four instructions of a cue.
fn place_cue(cue: Cue, at: usize, image: &mut [u8]) -> usize
    requires { (at + 9 < 65536) × (at + 9 ≤ length image.old) }
    ensures value { result ≡ at + 9 }
    ensures image_after { image.new ≡ take at image.old ++ (assembled at (of_cue cue) ++ drop (at + 9) image.old) }
{
    let a = place(move_delay(cue.delay), at, image);
    let b = place(loop_to(a as u16), a, image);
    let d = place(move_mask(cue.mask), b, image);
    place(output_to(cue.port), d, image)
}

// The cue that four bytes hold.
fn cue_of(bytes: &[u8]) -> Cue
    requires { length bytes.now ≡ 4 }
    ensures { result ≡ cue_at bytes.now 0 }
{
    Cue {
        delay: u16::from_le_bytes([bytes[0], bytes[1]]),
        port: bytes[2],
        mask: bytes[3],
    }
}

// Has one of the cues a delay of 0?
fn some_without(cues: &[u8]) -> bool
    requires { length cues.now % 4 ≡ 0 }
    ensures { result ≡ some_without (cues_in cues.now) }
{
    for bytes in cues.chunks_exact(CUE_LENGTH) {
        if cue_of(bytes).delay == 0 {
            return true;
        }
    }
    false
}

// Each cue into the part of the image where the last one ended, then HLT.
fn place_all(cues: &[u8], image: &mut [u8])
    requires { (is_cue_list cues.now ≡ true) × (length (image_of (cues_in cues.now)) ≤ length image.old) }
    ensures { image.new ≡ image_of (cues_in cues.now) ++ drop (length (image_of (cues_in cues.now))) image.old }
{
    let mut at = 0;
    for bytes in cues.chunks_exact(CUE_LENGTH) {
        at = place_cue(cue_of(bytes), at, image);
    }
    place(halts(), at, image);
}

// Compiles cues to the front of the image: the length of the program, or the refusal, which leaves the image as it was.
pub fn compile(cues: &[u8], image: &mut [u8]) -> Result<usize, CueError>
    ensures value { result ≡ compiled cues.now (length image.old) }
    ensures image_after { image.new ≡ image_after cues.now image.old }
{
    let size = cues.len();
    if size % CUE_LENGTH != 0 {
        return Err(CueError::WrongLength);
    }
    if CUE_LENGTH * MOST_CUES < size {
        return Err(CueError::WrongLength);
    }
    if some_without(cues) {
        return Err(CueError::NoDelay);
    }
    let n = CUE_CODE * (size / CUE_LENGTH) + HALT_CODE;
    if image.len() < n {
        return Err(CueError::ImageTooShort);
    }
    place_all(cues, image);
    Ok(n)
}
