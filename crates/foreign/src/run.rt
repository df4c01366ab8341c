// An image, run on the desk.
ghost use Rattle.std.specs.Prelude.{◌≡◌, length};
ghost use Rattle.desk_run.specs.Running.{ending, answered, log_after};
ghost use Rattle.foreign.specs.RunImage.{run_number, result_in, result_after};

use foreign_report::{put_three, put_u32};

// Writes the result of a run to its front: two u64, of which the count has 32 bits. A slice of less than 16 bytes stays as it was.
fn write_result(count: u32, n: usize, out: &mut [u8])
    ensures { out.new ≡ result_in count n out.old }
{
    if out.len() < 16 {
        return;
    }
    put_three(out, 0, count, 0, (n % 4294967296) as u32);
    put_u32(out, 12, (n / 4294967296 % 4294967296) as u32)
}

// Runs an image on the desk, from offset 0 on, with all registers 0.
//   image    the image; of a longer one the first 65,536 bytes
//   budget   how many instructions are carried out at most, HLT among them
//   log      gets, where the run halts, port and AL of each OUT at its front; its later bytes stay, and a refusal leaves it as it was
//   out      where it has 16 bytes, else it stays as it was: the instructions carried out and the length of the log's pairs (u64 each), 0 on a refusal
//   answer   0; before each instruction 22 where the budget is carried out, then 21 where the next bytes inside the image are no such instruction, then of an
//            OUT 9 where no two bytes of the log are left
pub fn fsq_run(image: &[u8], budget: u32, log: &mut [u8], out: &mut [u8]) -> u8
    ensures value { result ≡ run_number (answered (ending image.now budget (length log.old))) }
    ensures log_after { log.new ≡ log_after (ending image.now budget (length log.old)) log.old }
    ensures out_after { out.new ≡ result_after (answered (ending image.now budget (length log.old))) out.old }
{
    let ran = desk_run::run(image, budget, log);
    match ran {
        Ok(halted) => {
            write_result(halted.count, halted.log_length, out);
            0
        }
        Err(error) => {
            write_result(0, 0, out);
            error.number()
        }
    }
}
