// A step of the machine that the simulator runs (REFERENCE 15).
#![tactic(auto)]

ghost use Rattle.std.specs.Prelude.{◌≡◌, ◌+◌, ◌%◌};
ghost use Rattle.desk_step.specs.Step.{start, with_word, with_byte, word_in, action_of, shown, looped, refused_at, performed, step_of, fetched_at, none_known, known_at, IsKnown};

use mrc_compiler::encoder::OperandSize;
use mrc_compiler::operations::Operation;
use x86::{Instruction, Operand};

// The word registers by their numbers in ModRM (AX CX DX BX SP BP SI DI), and the offset of the next instruction.
#[derive(Clone, Copy, Debug, PartialEq, Eq)]
pub struct Machine {
    pub registers: [u16; 8],
    pub ip: u16,
}

// What an instruction that is carried out has the machine do.
#[derive(Clone, Copy, Debug, PartialEq, Eq)]
pub enum Action {
    // MOV of an immediate to a word register.
    MoveWord(u16, u16),

    // The same to a byte register.
    MoveByte(u16, u8),

    // LOOP to a target.
    Loop(u16),

    // JMP to a target.
    Jump(u16),

    // OUT of AL to a port.
    Output(u8),

    // HLT.
    Halt,
}

// What a step shows to the run. Four outcomes, of which one has a value and none is an error of the step: a Result would be no plainer.
#[derive(Clone, Copy, Debug, PartialEq, Eq)]
pub enum Effect {
    Goes,

    // The port and AL.
    Outputs(u8, u8),

    Halts,

    // The bytes are another instruction or none.
    Refused,
}

#[derive(Clone, Copy, Debug, PartialEq, Eq)]
pub struct Stepped {
    pub effect: Effect,
    pub machine: Machine,
}

// What the simulator carries out of an instruction; None where it is another.
pub fn action_of(m: Instruction) -> Option<Action>
    ensures { result ≡ action_of m }
{
    match (m.operation, m.width, m.first, m.second) {
        (Operation::MOV, OperandSize::Word, Operand::Register(n), Operand::Immediate(v)) => {
            Some(Action::MoveWord(n as u16, v))
        }
        (Operation::MOV, OperandSize::Byte, Operand::Register(n), Operand::Immediate(v)) => {
            Some(Action::MoveByte(n as u16, (v % 256) as u8))
        }
        (Operation::LOOP, _, Operand::Near(t), _) => Some(Action::Loop(t)),
        (Operation::JMP, _, Operand::Near(t), _) => Some(Action::Jump(t)),
        (Operation::OUT, OperandSize::Byte, Operand::Immediate(port), Operand::Register(0)) => {
            Some(Action::Output((port % 256) as u8))
        }
        (Operation::HLT, _, _, _) => Some(Action::Halt),
        _ => None,
    }
}

fn word_in(registers: [u16; 8], n: u16) -> u16
    ensures { result ≡ word_in registers n }
{
    registers.get(n as usize).copied().unwrap_or(0)
}

fn with_word(mut registers: [u16; 8], n: u16, v: u16) -> [u16; 8]
    ensures { result ≡ with_word registers n v }
{
    if n < 8 {
        registers[n as usize] = v;
    }
    registers
}

fn with_byte(registers: [u16; 8], n: u16, v: u8) -> [u16; 8]
    ensures { result ≡ with_byte registers n v }
{
    if n < 4 {
        let low = word_in(registers, n) / 256 * 256 + v as u16;
        return with_word(registers, n, low);
    }
    let k = n - 4;
    let high = v as u16 * 256 + word_in(registers, k) % 256;
    with_word(registers, k, high)
}

fn showing(effect: Effect, registers: [u16; 8], ip: u16) -> Stepped
    ensures { result ≡ shown effect registers ip }
{
    Stepped {
        effect,
        machine: Machine { registers, ip },
    }
}

// LOOP: CX is counted down, and the target taken where it is not 0 then.
fn loop_to(target: u16, next: u16, registers: [u16; 8]) -> Stepped
    ensures { result ≡ looped target next registers }
{
    let count = word_in(registers, 1).wrapping_sub(1);
    let changed = with_word(registers, 1, count);
    if count == 0 {
        return showing(Effect::Goes, changed, next);
    }
    showing(Effect::Goes, changed, target)
}

// Carries out an action; next is the offset past its instruction. The kinds of action are closed: a match is the table of what each does.
#[inline(always)]
fn perform(action: Option<Action>, next: u16, m: Machine) -> Stepped
    ensures { result ≡ performed action next m }
{
    let registers = m.registers;
    match action {
        Some(Action::MoveWord(n, v)) => showing(Effect::Goes, with_word(registers, n, v), next),
        Some(Action::MoveByte(n, v)) => showing(Effect::Goes, with_byte(registers, n, v), next),
        Some(Action::Loop(t)) => loop_to(t, next, registers),
        Some(Action::Jump(t)) => showing(Effect::Goes, registers, t),
        Some(Action::Output(port)) => {
            let al = (word_in(registers, 0) % 256) as u8;
            showing(Effect::Outputs(port, al), registers, next)
        }
        Some(Action::Halt) => showing(Effect::Halts, registers, next),
        None => showing(Effect::Refused, registers, m.ip),
    }
}

// What stands at an offset: what its instruction has the machine do, and the instruction's length.
#[derive(Clone, Copy, Debug, PartialEq, Eq)]
pub struct Fetched {
    pub action: Option<Action>,
    pub length: u16,
}

// What was fetched last, and where; 65536 where nothing was, and no Option, since `step` takes what is known at any `at`.
#[derive(Clone, Copy, Debug, PartialEq, Eq)]
pub struct Known {
    pub at: u32,
    pub fetched: Fetched,
}

// A step, and what is known behind it.
#[derive(Clone, Copy, Debug, PartialEq, Eq)]
pub struct Done {
    pub stepped: Stepped,
    pub known: Known,
}

pub fn none_known() -> Known
    ensures { result ≡ none_known }
{
    Known {
        at: 65536,
        fetched: Fetched {
            action: None,
            length: 0,
        },
    }
}

fn fetched_as(action: Option<Action>, n: usize) -> Fetched
    ensures { (result.action ≡ action) × (result.length ≡ n % 65536) }
{
    Fetched {
        action,
        length: (n % 65536) as u16,
    }
}

// Reads the instruction at an offset. Never inlined: a run's loops hold the rest of a step, and come here only for another instruction than the last.
#[inline(never)]
fn fetch(image: &[u8], ip: u16) -> Fetched
    ensures { result ≡ fetched_at image.now ip }
{
    let at = ip as usize;
    if image.len() < at {
        return fetched_as(None, 0);
    }
    let rest = &image[at..];
    let found = reader::read_at(rest, ip);
    match found {
        Ok((insn, n)) => fetched_as(action_of(insn), n),
        Err(_) => fetched_as(None, 0),
    }
}

// What stands at an offset, read only where it is not known.
fn known_at(image: &[u8], ip: u16, known: Known) -> Known
    requires { IsKnown image.now known }
    ensures { result ≡ known_at image.now ip }
{
    let at = ip as u32;
    if known.at == at {
        return known;
    }
    let fetched = fetch(image, ip);
    Known { at, fetched }
}

#[inline(always)]
fn carry_out(fetched: Fetched, m: Machine) -> Stepped
    ensures { result ≡ performed fetched.action ((m.ip + fetched.length) % 65536) m }
{
    perform(fetched.action, m.ip.wrapping_add(fetched.length), m)
}

// One step: the instruction at IP. Inlined with what it does: the machine and what is known would else go to it and back by way of memory.
#[inline(always)]
pub fn step(image: &[u8], m: Machine, known: Known) -> Done
    requires { IsKnown image.now known }
    ensures stepped_value { result.stepped ≡ step_of image.now m }
    ensures known_value { result.known ≡ known_at image.now m.ip }
{
    let known = known_at(image, m.ip, known);
    Done {
        stepped: carry_out(known.fetched, m),
        known,
    }
}

pub fn start_of() -> Machine
    ensures { result ≡ start }
{
    Machine {
        registers: [0; 8],
        ip: 0,
    }
}
