// The code lists of document 01 on the bytes of a record, each into one number; 0 where a value is out of its range, or where a form has no size.
#![tactic(auto)]

ghost use Rattle.std.specs.Prelude.{◌≡◌, ℕ, ◌+◌, ◌*◌, ◌<◌, ◌≤◌, [], ◌∷◌, ◌++◌};
ghost use Rattle.mrc_compiler.specs.declared.encoder.generate.Code.TheVariants as C;
ghost use Rattle.encode_lines.specs.Lines.{bit, immediate, one_code, two_codes};
ghost use Rattle.encode_fields.specs.Fields.{mod_reg_rm};
ghost use Rattle.show_record.specs.Record.{first_place, byte_at, operand_at};
ghost use Rattle.fast_run.specs.Packed.{digits, unpacked, Valued};
ghost use Rattle.fast_rows.specs.Rows.{data_of};
ghost use Rattle.fast_forms.specs.Ready.{Ready, Operand, place, other_place, codes_at, Gives, Sized, Value};

use show_record::{DISPLACEMENT, DISPLACEMENT_SIZE, FIRST, IMM, MODE, PREFIX, RM, SECOND};

// No value.
const NONE: u64 = 65536;

// Prefix, opcode, ModRM and displacement of the operand at a place, then a value of n bytes.
fn rm_form(rec: &[u8], at: usize, op_code: u8, reg: u8, n: u8, value: u64) -> u64
    requires { Ready rec.now × (Operand rec.now at × ((reg < 8) × Valued n value)) }
    ensures { unpacked result ≡ mod_reg_rm op_code (operand_at rec.now at) reg ++ digits n value }
{
    fast_run::rm_run(
        rec[at + PREFIX],
        op_code,
        rec[at + MODE] * 64 + reg * 8 + rec[at + RM],
        rec[at + DISPLACEMENT_SIZE],
        rec[at + DISPLACEMENT],
        rec[at + DISPLACEMENT + 1],
        n,
        value,
    )
}

// The immediate of the second operand, of a size.
fn imm_value(rec: &[u8], size: u8) -> u64
    requires { Ready rec.now × ((0 < size) × (size ≤ 2)) }
    ensures { Value rec.now (immediate (data_of size)) size result }
{
    let n = show_record::u32_at(rec, SECOND + IMM);
    if size == 1 {
        if fast_value::in_range(n, 128, 384) {
            return fast_value::wide(rec[SECOND + IMM]);
        }
        return NONE;
    }
    if fast_value::in_range(n, 32768, 98304) {
        return fast_value::wide(rec[SECOND + IMM]) + 256 * fast_value::wide(rec[SECOND + IMM + 1]);
    }
    NONE
}

// One operand in r/m, the other in reg.
pub fn rm_reg(rec: &[u8], at: usize, other: usize, op_code: u8, size: u8) -> u64
    requires { Ready rec.now × (Operand rec.now at × (Operand rec.now other × ((size ≤ 2) × (op_code < 255)))) }
    ensures { (k off : ℕ) → at ≡ place k → other ≡ other_place k → Sized size result (codes_at rec.now off (one_code (C.ModRegRM k (op_code + bit (data_of size))))) }
{
    if size == 0 {
        return 0;
    }
    rm_form(rec, at, op_code + (size - 1), rec[other + RM], 0, 0)
}

// The first operand in r/m, a digit in reg.
pub fn rm_alone(rec: &[u8], op_code: u8, digit: u8, size: u8) -> u64
    requires { Ready rec.now × ((size ≤ 2) × ((op_code < 255) × (digit < 8))) }
    ensures { (off : ℕ) → Sized size result (codes_at rec.now off (one_code (C.ModRM 0 (op_code + bit (data_of size)) digit))) }
{
    if size == 0 {
        return 0;
    }
    rm_form(rec, FIRST, op_code + (size - 1), digit, 0, 0)
}

// The same, then an immediate of the size.
pub fn rm_imm(rec: &[u8], op_code: u8, digit: u8, size: u8) -> u64
    requires { Ready rec.now × ((size ≤ 2) × ((op_code < 255) × (digit < 8))) }
    ensures { (off : ℕ) → Sized size result (codes_at rec.now off (two_codes (C.ModRM 0 (op_code + bit (data_of size)) digit) (immediate (data_of size)))) }
{
    if size == 0 {
        return 0;
    }
    let value = imm_value(rec, size);
    if NONE <= value {
        return 0;
    }
    rm_form(rec, FIRST, op_code + (size - 1), digit, size, value)
}

// 83, with the immediate's low byte.
pub fn rm_sign_extended(rec: &[u8], digit: u8) -> u64
    requires { Ready rec.now × (digit < 8) }
    ensures { (off : ℕ) → Gives result (codes_at rec.now off (two_codes (C.ModRM 0 0x83 digit) (C.ImmSignExtended 1))) }
{
    rm_form(
        rec,
        FIRST,
        0x83,
        digit,
        1,
        fast_value::wide(rec[SECOND + IMM]),
    )
}

// An opcode, then an immediate of the size.
pub fn bare_imm(rec: &[u8], op_code: u8, size: u8) -> u64
    requires { Ready rec.now × ((size ≤ 2) × (op_code < 255)) }
    ensures { (off : ℕ) → Sized size result (codes_at rec.now off (two_codes (C.Byte (op_code + bit (data_of size))) (immediate (data_of size)))) }
{
    if size == 0 {
        return 0;
    }
    let value = imm_value(rec, size);
    if NONE <= value {
        return 0;
    }
    fast_run::bare_run(op_code + (size - 1), size, value)
}

// MOV of an immediate into a register.
pub fn reg_imm(rec: &[u8], size: u8) -> u64
    requires { Ready rec.now × (size ≤ 2) }
    ensures { (off : ℕ) → Sized size result (codes_at rec.now off (two_codes (C.RegByte 0 (0xB0 + 8 * bit (data_of size))) (immediate (data_of size)))) }
{
    if size == 0 {
        return 0;
    }
    let value = imm_value(rec, size);
    if NONE <= value {
        return 0;
    }
    fast_run::bare_run(0xB0 + 8 * (size - 1) + rec[FIRST + RM], size, value)
}

// The accumulator beside an address: prefix, opcode, address.
pub fn moffs_run(rec: &[u8], at: usize, op_code: u8, size: u8) -> u64
    requires { Ready rec.now × (Operand rec.now at × ((size ≤ 2) × (op_code < 255))) }
    ensures { (k off : ℕ) → at ≡ place k → Sized size result (codes_at rec.now off (two_codes (C.MemByte k (op_code + bit (data_of size))) (C.DispWord k))) }
{
    if size == 0 {
        return 0;
    }
    if fast_value::in_range(show_record::u32_at(rec, at + DISPLACEMENT), 0, 65536) {
        return fast_run::memory_run(
            rec[at + PREFIX],
            op_code + (size - 1),
            2,
            fast_value::wide(rec[at + DISPLACEMENT])
                + 256 * fast_value::wide(rec[at + DISPLACEMENT + 1]),
        );
    }
    0
}

// A register's number in the opcode.
pub fn reg_run(rec: &[u8], at: usize, op_code: u8) -> u64
    requires { Ready rec.now × (Operand rec.now at × (op_code < 248)) }
    ensures { (k off : ℕ) → at ≡ place k → Gives result (codes_at rec.now off (one_code (C.RegByte k op_code))) }
{
    fast_run::bare_run(op_code + rec[at + RM], 0, 0)
}

// A segment register's number in the opcode.
pub fn segment_run(rec: &[u8], op_code: u8) -> u64
    requires { Ready rec.now × ((byte_at rec.now first_place ≡ 2) × (op_code < 224)) }
    ensures { (off : ℕ) → Gives result (codes_at rec.now off (one_code (C.SegByte 0 op_code))) }
{
    fast_run::bare_run(op_code + 8 * rec[FIRST + RM], 0, 0)
}

// An opcode alone.
pub fn byte_run(op_code: u8) -> u64
    ensures { unpacked result ≡ op_code ∷ [] }
{
    fast_run::bare_run(op_code, 0, 0)
}

// An opcode, then the byte of a vector or of a port.
pub fn unsigned_run(rec: &[u8], at: usize, op_code: u8) -> u64
    requires { Ready rec.now × Operand rec.now at }
    ensures { (k off : ℕ) → at ≡ place k → Gives result (codes_at rec.now off (two_codes (C.Byte op_code) (C.UnsignedByte k))) }
{
    if fast_value::in_range(show_record::u32_at(rec, at + IMM), 0, 256) {
        return fast_run::bare_run(op_code, 1, fast_value::wide(rec[at + IMM]));
    }
    0
}

// RET with the bytes that it takes off the stack.
pub fn ret_run(rec: &[u8]) -> u64
    requires { Ready rec.now }
    ensures { (off : ℕ) → Gives result (codes_at rec.now off (two_codes (C.Byte 0xC2) (C.UnsignedWord 0))) }
{
    if fast_value::in_range(show_record::u32_at(rec, FIRST + IMM), 0, 65536) {
        return fast_run::bare_run(
            0xC2,
            2,
            fast_value::wide(rec[FIRST + IMM]) + 256 * fast_value::wide(rec[FIRST + IMM + 1]),
        );
    }
    0
}

// XLATB: prefix and opcode.
pub fn xlat_run(rec: &[u8]) -> u64
    requires { Ready rec.now }
    ensures { (off : ℕ) → Gives result (codes_at rec.now off (one_code (C.MemByte 0 0xD7))) }
{
    fast_run::memory_run(rec[FIRST + PREFIX], 0xD7, 0, 0)
}

// A far target: its offset, then its segment.
pub fn far_run(rec: &[u8]) -> u64
    requires { Ready rec.now }
    ensures { (off : ℕ) → Gives result (codes_at rec.now off (two_codes (C.Byte 0xEA) (C.FarWords 0))) }
{
    if fast_value::in_range(show_record::u32_at(rec, FIRST + IMM), 0, 65536) {
        if fast_value::in_range(show_record::u32_at(rec, FIRST + DISPLACEMENT), 0, 65536) {
            return fast_run::far_run(
                0xEA,
                rec[FIRST + IMM],
                rec[FIRST + IMM + 1],
                rec[FIRST + DISPLACEMENT],
                rec[FIRST + DISPLACEMENT + 1],
            );
        }
    }
    0
}

// A branch to a distance of one byte.
pub fn short_run(rec: &[u8], offset: u16, op_code: u8) -> u64
    requires { Ready rec.now }
    ensures { Gives result (codes_at rec.now offset (two_codes (C.Byte op_code) (C.RelByte 0 2))) }
{
    let distance = std::num::wrapping_sub_u32(
        show_record::u32_at(rec, FIRST + IMM),
        offset as u32 + 2,
    );
    if fast_value::in_range(distance, 128, 256) {
        return fast_run::bare_run(op_code, 1, (distance % 256) as u64);
    }
    0
}

// A branch to a distance of one word.
pub fn near_run(rec: &[u8], offset: u16, op_code: u8) -> u64
    requires { Ready rec.now }
    ensures { Gives result (codes_at rec.now offset (two_codes (C.Byte op_code) (C.RelWord 0))) }
{
    let target = show_record::u32_at(rec, FIRST + IMM);
    if fast_value::in_range(target, 0, 65536) {
        return fast_run::bare_run(
            op_code,
            2,
            (std::num::wrapping_sub_u32(target, offset as u32 + 3) % 65536) as u64,
        );
    }
    0
}
