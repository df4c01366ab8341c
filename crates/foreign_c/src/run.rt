// An image, run on the desk.
ghost use Rattle.std.specs.Prelude.{◌≡◌, length};
ghost use Rattle.desk_run.specs.Running.{ending, answered, log_after};
ghost use Rattle.foreign.specs.RunImage.{run_number, result_after};

// Runs an image on the desk, from offset 0 on, with all registers 0.
//   image    the image; of a longer one the first 65,536 bytes
//   budget   how many instructions are carried out at most, HLT among them
//   log      gets, where the run halts, port and AL of each OUT at its front; its later bytes stay, and a refusal leaves it as it was
//   out      where it has 16 bytes, else it stays as it was: the instructions carried out and the length of the log's pairs (u64 each), 0 on a refusal
//   answer   0; before each instruction 22 where the budget is carried out, then 21 where the next bytes inside the image are no such instruction, then of an
//            OUT 9 where no two bytes of the log are left
// In C: uint8_t fsq_run(const uint8_t *image, size_t image_len, uint32_t budget, uint8_t *log, size_t log_len, uint8_t *out, size_t out_len);
#[unsafe(no_mangle)]
pub extern "C" fn fsq_run(image: &[u8], budget: u32, log: &mut [u8], out: &mut [u8]) -> u8
    ensures value { result ≡ run_number (answered (ending image.now budget (length log.old))) }
    ensures log_after { log.new ≡ log_after (ending image.now budget (length log.old)) log.old }
    ensures out_after { out.new ≡ result_after (answered (ending image.now budget (length log.old))) out.old }
{
    foreign::run::fsq_run(image, budget, log, out)
}
