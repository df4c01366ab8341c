// The instruction at the front of some bytes.
ghost use Rattle.std.specs.Prelude.{◌≡◌};
ghost use Rattle.reader.specs.Answer.{decoded};
ghost use Rattle.foreign.specs.ReadBytes.{read_number, read_after};

// Reads one instruction at the front of bytes; what follows it is not looked at, but for the byte behind F2 or F3: they belong to a string operation.
//   offset   where the bytes stand: near targets are answered for it
//   out      gets, where it has 24 bytes and an instruction is read: length, operation (its number in a show file), width (0 none, 1 byte, 2
//            word), the form's opcode, its extension (0 none, 1 +r, 2 +s, 3 /r, 4 a second byte 0A, 8 + n for /n), its repeat (0, F2 or F3), two zeros; then for each of
//            two operands: kind (0 none, 1 register, 2 segment register, 3 memory, 4 immediate, 5 near target, 6 far target, 7 a shift's count of
//            1), number (the register's, or the base: the r/m number of the address, 8 for none), the segment of memory (0 ES, 1 CS, 2 SS, 3
//            DS), zero, displacement, immediate or target (u16), a far target's segment (u16). Its later bytes stay
//   answer   0, or 10 where no instruction begins so, or 11 where one is not complete yet; out then stays as it was
// In C: uint8_t fsq_read(const uint8_t *bytes, size_t bytes_len, uint16_t offset, uint8_t *out, size_t out_len);
#[unsafe(no_mangle)]
pub extern "C" fn fsq_read(bytes: &[u8], offset: u16, out: &mut [u8]) -> u8
    ensures value { result ≡ read_number (decoded offset bytes.now) }
    ensures out_after { out.new ≡ read_after (decoded offset bytes.now) out.old }
{
    foreign::read::fsq_read(bytes, offset, out)
}
