// Runs the image of a field module on the desk (REFERENCE 15).
#![tactic(auto)]

ghost use Rattle.std.specs.Prelude.{◌≡◌, true, [], ◌++◌, ◌+◌, ◌≤◌, length, take, drop};
ghost use Rattle.desk_step.specs.Step.{start};
ghost use Rattle.desk_run.specs.Running.{number_of, ran, is_halted, ending, answered, log_after};
ghost use Rattle.desk_run.specs.Turns.{added, is_last};

use desk_step::Effect;

// How many bytes of an image are in reach.
const REACH: usize = 65536;

#[derive(Clone, Copy, Debug, PartialEq, Eq)]
pub enum RunError {
    // 21.
    NotCarriedOut,

    // 22.
    BudgetSpent,

    // 9: no two bytes of the log are left.
    LogTooShort,
}

// A run that halts: the instructions carried out, HLT among them, and the length of the log's pairs.
#[derive(Clone, Copy, Debug, PartialEq, Eq)]
pub struct Halted {
    pub count: u32,
    pub log_length: usize,
}

impl RunError {
    // Document 02's number.
    pub fn number(self) -> u8
        ensures { result ≡ number_of self }
    {
        match self {
            RunError::NotCarriedOut => 21,
            RunError::BudgetSpent => 22,
            RunError::LogTooShort => 9,
        }
    }
}

// The run without its log: how it ends.
fn measure(image: &[u8], budget: u32, room: usize) -> Result<Halted, RunError>
    ensures { result ≡ answered (ran image.now room budget 0 start []) }
{
    let mut machine = desk_step::start_of();
    let mut known = desk_step::none_known();
    let mut at = 0;
    for before in 0..budget {
        let done = desk_step::step(image, machine, known);
        match done.stepped.effect {
            Effect::Goes => {}
            Effect::Outputs(_, _) => {
                if room - at < 2 {
                    return Err(RunError::LogTooShort);
                }
                at += 2;
            }
            Effect::Halts => {
                return Ok(Halted {
                    count: before + 1,
                    log_length: at,
                });
            }
            Effect::Refused => return Err(RunError::NotCarriedOut),
        }
        machine = done.stepped.machine;
        known = done.known;
    }
    Err(RunError::BudgetSpent)
}

fn is_last(effect: Effect) -> bool
    ensures { result ≡ is_last effect }
{
    matches!(effect, Effect::Halts | Effect::Refused)
}

// Adds what a step puts out to the log; the next place.
fn add(effect: Effect, at: usize, log: &mut [u8]) -> usize
    requires { at + length (added effect) ≤ length log.old }
    ensures value { result ≡ at + length (added effect) }
    ensures log_after { log.new ≡ take at log.old ++ (added effect ++ drop (at + length (added effect)) log.old) }
{
    if let Effect::Outputs(port, value) = effect {
        log[at] = port;
        log[at + 1] = value;
        return at + 2;
    }
    at
}

// The run with its log, which halts.
fn write_log(image: &[u8], budget: u32, log: &mut [u8])
    requires { is_halted (ran image.now (length log.old) budget 0 start []) ≡ true }
    ensures { log.new ≡ log_after (ran image.now (length log.old) budget 0 start []) log.old }
{
    let mut machine = desk_step::start_of();
    let mut known = desk_step::none_known();
    let mut at = 0;
    for _ in 0..budget {
        let done = desk_step::step(image, machine, known);
        if is_last(done.stepped.effect) {
            return;
        }
        at = add(done.stepped.effect, at, log);
        machine = done.stepped.machine;
        known = done.known;
    }
}

// Runs an image from offset 0 with a budget of steps: the number of instructions carried out and the length of the pairs of port and mask in
// the log, or the refusal, which leaves the log as it was.
pub fn run(image: &[u8], budget: u32, log: &mut [u8]) -> Result<Halted, RunError>
    ensures value { result ≡ answered (ending image.now budget (length log.old)) }
    ensures log_after { log.new ≡ log_after (ending image.now budget (length log.old)) log.old }
{
    let code = &image[..image.len().min(REACH)];
    let halted = measure(code, budget, log.len())?;
    write_log(code, budget, log);
    Ok(halted)
}
