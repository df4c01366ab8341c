// A faster way to an answer's bytes: off the record's own bytes into one number. Where it has none the encoder is asked, which gives every refusal.
#![tactic(auto)]

ghost use Rattle.std.specs.Prelude.{◌≡◌, true, false, [], ◌∷◌, ℕ, ◌+◌, ◌≤◌, ◌<◌, eqb, pos, Ok, Err};
ghost use Rattle.mrc_compiler.specs.Builders.{is_direct_address};
ghost use Rattle.mrc_compiler.specs.Choose.{pick, both, by_jump};
ghost use Rattle.mrc_compiler.specs.Values.{within};
ghost use Rattle.mrc_compiler.specs.declared.ast.DataSize.TheVariants as Z;
ghost use Rattle.mrc_compiler.specs.declared.encoder.generate.Code.TheVariants as C;
ghost use Rattle.encode_lines.specs.Lines.{bit, one_code, two_codes, invalid_operands, target_out_of_range};
ghost use Rattle.encode_lines.specs.declared.Line.TheVariants as L;
ghost use Rattle.encode_plans.specs.Decisions.{by_data, takes_byte, sreg_form, is_ax, through_form, far_form};
ghost use Rattle.encode_plans.specs.Sizes.{is_cl, is_bx};
ghost use Rattle.show_record.specs.Record.{byte_at, i32_at, size_at, jump_kind_at};
ghost use Rattle.encode_spec.specs.Answer.{bytes};
ghost use Rattle.fast_run.specs.Packed.{unpacked};
ghost use Rattle.fast_rows.specs.Rows.{data_of};
ghost use Rattle.fast_forms.specs.Ready.{Ready, Operand, place, codes_at, Gives, Sized};
ghost use Rattle.fast_encoder.specs.Packing.{Packed, Through, Repeated, line_at, decided_at};

use show_record::{COUNT, FIRST, IMM, JUMP_KIND, KIND, MODE, OPERATION, REPEAT, RM, SECOND, SIZE};

// ADD to CMP with an immediate. acc: the first operand is the accumulator.
fn arithmetic_imm(rec: &[u8], base: u8, size: u8, acc: bool) -> u64
    requires { Ready rec.now × ((size ≤ 2) × (base < 64)) }
    ensures { (off : ℕ) → Sized size result (line_at rec.now off (pick (takes_byte (data_of size) (i32_at rec.now 40)) (Ok L.ArithRmImmSx) (pick acc (Ok L.ArithAccImm) (Ok L.ArithRmImm))) (data_of size) base) }
{
    if size == 2 {
        if fast_value::in_range(show_record::u32_at(rec, SECOND + IMM), 128, 256) {
            return fast_forms::rm_sign_extended(rec, base / 8);
        }
        if acc {
            return fast_forms::bare_imm(rec, base + 4, 2);
        }
        return fast_forms::rm_imm(rec, 0x80, base / 8, 2);
    }
    if acc {
        return fast_forms::bare_imm(rec, base + 4, size);
    }
    fast_forms::rm_imm(rec, 0x80, base / 8, size)
}

// MOV from memory into a register.
fn mov_from(rec: &[u8], size: u8) -> u64
    requires { Ready rec.now × (size ≤ 2) }
    ensures { (off : ℕ) → Sized size result (line_at rec.now off (pick (both (eqb (byte_at rec.now 16) 0) (is_direct_address (byte_at rec.now 38) (byte_at rec.now 39))) (Ok L.MovAccMoffs) (Ok L.MovRegRm)) (data_of size) 0) }
{
    if encode_plans::is_acc_direct(rec[FIRST + RM], rec[SECOND + MODE], rec[SECOND + RM]) {
        return fast_forms::moffs_run(rec, SECOND, 0xA0, size);
    }
    fast_forms::rm_reg(rec, SECOND, FIRST, 0x8A, size)
}

// MOV from a register into memory.
fn mov_into(rec: &[u8], size: u8) -> u64
    requires { Ready rec.now × (size ≤ 2) }
    ensures { (off : ℕ) → Sized size result (line_at rec.now off (pick (both (eqb (byte_at rec.now 39) 0) (is_direct_address (byte_at rec.now 15) (byte_at rec.now 16))) (Ok L.MovMoffsAcc) (Ok L.MovRmReg)) (data_of size) 0) }
{
    if encode_plans::is_acc_direct(rec[SECOND + RM], rec[FIRST + MODE], rec[FIRST + RM]) {
        return fast_forms::moffs_run(rec, FIRST, 0xA2, size);
    }
    fast_forms::rm_reg(rec, FIRST, SECOND, 0x88, size)
}

// MOV of a segment register, which is a word.
fn mov_sreg(rec: &[u8], size: u8) -> u64
    requires { Ready rec.now }
    ensures { (off : ℕ) → Sized size result (line_at rec.now off (sreg_form (data_of size)) (data_of size) 0) }
{
    if size != 2 {
        return 0;
    }
    fast_forms::rm_reg(rec, FIRST, SECOND, 0x8B, 2)
}

// MOV into a segment register, never CS.
fn mov_into_sreg(rec: &[u8], size: u8) -> u64
    requires { Ready rec.now }
    ensures { (off : ℕ) → Sized size result (line_at rec.now off (by_data (data_of size) (Err invalid_operands) (pick (eqb (byte_at rec.now 16) 1) (Err invalid_operands) (Ok L.MovSregRm))) (data_of size) 0) }
{
    if size != 2 {
        return 0;
    }
    if rec[FIRST + RM] == 1 {
        return 0;
    }
    fast_forms::rm_reg(rec, SECOND, FIRST, 0x8D, 2)
}

// TEST of a register with an immediate.
fn test_imm(rec: &[u8], size: u8) -> u64
    requires { Ready rec.now × (size ≤ 2) }
    ensures { (off : ℕ) → Sized size result (line_at rec.now off (pick (eqb (byte_at rec.now 16) 0) (Ok L.TestAccImm) (Ok L.TestRmImm)) (data_of size) 0) }
{
    if rec[FIRST + RM] == 0 {
        return fast_forms::bare_imm(rec, 0xA8, size);
    }
    fast_forms::rm_imm(rec, 0xF6, 0, size)
}

// XCHG of two registers: AX has a form of its own.
fn xchg_regs(rec: &[u8], size: u8) -> u64
    requires { Ready rec.now × (size ≤ 2) }
    ensures { (off : ℕ) → Sized size result (line_at rec.now off (pick (is_ax (data_of size) (byte_at rec.now 16)) (Ok L.XchgAccReg) (pick (is_ax (data_of size) (byte_at rec.now 39)) (Ok L.XchgRegAcc) (Ok L.XchgRegRm))) (data_of size) 0) }
{
    if size == 2 {
        if rec[FIRST + RM] == 0 {
            return fast_forms::reg_run(rec, SECOND, 0x90);
        }
        if rec[SECOND + RM] == 0 {
            return fast_forms::reg_run(rec, FIRST, 0x90);
        }
        return fast_forms::rm_reg(rec, SECOND, FIRST, 0x86, 2);
    }
    fast_forms::rm_reg(rec, SECOND, FIRST, 0x86, size)
}

// PUSH and POP of memory: a word in r/m, a digit in reg.
fn word_alone(rec: &[u8], op_code: u8, digit: u8) -> u64
    requires { Ready rec.now × ((op_code < 255) × (digit < 8)) }
    ensures { (off : ℕ) → 0 < result → (byte_at rec.now 11 ≡ 2) × (codes_at rec.now off (one_code (C.ModRM 0 (op_code + 1) digit)) ≡ bytes (unpacked result)) }
{
    if rec[FIRST + SIZE] != 2 {
        return 0;
    }
    fast_forms::rm_alone(rec, op_code, digit, 2)
}

// POP of a segment register, never CS.
fn pop_sreg(rec: &[u8]) -> u64
    requires { Ready rec.now × (byte_at rec.now 10 ≡ 2) }
    ensures { (off : ℕ) → 0 < result → (byte_at rec.now 11 ≡ 2) × ((eqb (byte_at rec.now 16) 1 ≡ false) × (codes_at rec.now off (one_code (C.SegByte 0 0x07)) ≡ bytes (unpacked result))) }
{
    if rec[FIRST + SIZE] != 2 {
        return 0;
    }
    let segment = rec[FIRST + RM];
    if segment == 1 {
        return 0;
    }
    fast_forms::segment_run(rec, 0x07)
}

// LEA, LES, LDS: a word register in reg, memory in r/m.
fn load_run(rec: &[u8], base: u8) -> u64
    requires { Ready rec.now × (base < 255) }
    ensures { (off : ℕ) → 0 < result → (byte_at rec.now 11 ≡ 2) × (codes_at rec.now off (one_code (C.ModRegRM 1 base)) ≡ bytes (unpacked result)) }
{
    if rec[FIRST + SIZE] != 2 {
        return 0;
    }
    fast_forms::rm_reg(rec, SECOND, FIRST, base, 1)
}

// A shift by 1.
fn shift_one(rec: &[u8], base: u8, size: u8) -> u64
    requires { Ready rec.now × ((size ≤ 2) × (base < 8)) }
    ensures { (off : ℕ) → Sized size result (line_at rec.now off (pick (within (pos 1) (pos 1) (i32_at rec.now 40)) (Ok L.ShiftRmOne) (Err invalid_operands)) (data_of size) base) }
{
    if show_record::u32_at(rec, SECOND + IMM) != 1 {
        return 0;
    }
    fast_forms::rm_alone(rec, 0xD0, base, size)
}

// A shift by CL.
fn shift_cl(rec: &[u8], base: u8, size: u8) -> u64
    requires { Ready rec.now × ((size ≤ 2) × (base < 8)) }
    ensures { (off : ℕ) → Sized size result (line_at rec.now off (pick (is_cl (size_at rec.now 34) (byte_at rec.now 39)) (Ok L.ShiftRmCl) (Err invalid_operands)) (data_of size) base) }
{
    if rec[SECOND + SIZE] != 1 {
        return 0;
    }
    if rec[SECOND + RM] != 1 {
        return 0;
    }
    fast_forms::rm_alone(rec, 0xD2, base, size)
}

// CALL of an offset.
fn call_near(rec: &[u8], offset: u16) -> u64
    requires { Ready rec.now }
    ensures { Gives result (line_at rec.now offset (by_jump (jump_kind_at rec.now 14) (Ok L.CallRel) (Err invalid_operands) (Ok L.CallRel) (Err invalid_operands)) Z.Word 0) }
{
    if rec[FIRST + JUMP_KIND] == 1 {
        return 0;
    }
    if rec[FIRST + JUMP_KIND] == 3 {
        return 0;
    }
    fast_forms::near_run(rec, offset, 0xE8)
}

// CALL and JMP through a register or memory that holds an offset.
fn through(rec: &[u8], digit: u8) -> u64
    requires { Ready rec.now × (digit < 8) }
    ensures { (off : ℕ) → 0 < result → Through rec.now × (codes_at rec.now off (one_code (C.ModRM 0 0xFF digit)) ≡ bytes (unpacked result)) }
{
    if rec[FIRST + JUMP_KIND] == 1 {
        return 0;
    }
    if rec[FIRST + JUMP_KIND] == 3 {
        return 0;
    }
    if rec[FIRST + SIZE] == 1 {
        return 0;
    }
    fast_forms::rm_alone(rec, 0xFE, digit, 2)
}

// CALL through memory, which may hold a far target.
fn call_memory(rec: &[u8]) -> u64
    requires { Ready rec.now }
    ensures { (off : ℕ) → Gives result (line_at rec.now off (through_form (Ok L.CallRm) (jump_kind_at rec.now 14) (size_at rec.now 11) (far_form (size_at rec.now 11)) (Err invalid_operands)) Z.Word 0) }
{
    if rec[FIRST + JUMP_KIND] == 1 {
        if rec[FIRST + SIZE] == 1 {
            return 0;
        }
        return fast_forms::rm_alone(rec, 0xFE, 3, 2);
    }
    through(rec, 2)
}

// JMP to an offset or to a far target. The target's range is asked before the kind of jump.
fn jmp_imm(rec: &[u8], offset: u16) -> u64
    requires { Ready rec.now }
    ensures { Gives result (line_at rec.now offset (pick (within (pos 0) (pos 65535) (i32_at rec.now 17)) (by_jump (jump_kind_at rec.now 14) (Ok L.JmpRel) (Ok L.JmpPtr) (Ok L.JmpRel) (Ok L.JmpShort)) (Err target_out_of_range)) Z.Word 0) }
{
    if fast_value::in_range(show_record::u32_at(rec, FIRST + IMM), 0, 65536) {
        if rec[FIRST + JUMP_KIND] == 1 {
            return fast_forms::far_run(rec);
        }
        if rec[FIRST + JUMP_KIND] == 3 {
            return fast_forms::short_run(rec, offset, 0xEB);
        }
        return fast_forms::near_run(rec, offset, 0xE9);
    }
    0
}

// XLATB of [BX].
fn xlat(rec: &[u8]) -> u64
    requires { Ready rec.now }
    ensures { (off : ℕ) → 0 < result → (byte_at rec.now 11 ≡ 2) × ((is_bx (byte_at rec.now 15) (byte_at rec.now 16) ≡ true) × (codes_at rec.now off (one_code (C.MemByte 0 0xD7)) ≡ bytes (unpacked result))) }
{
    if rec[FIRST + SIZE] != 2 {
        return 0;
    }
    if rec[FIRST + MODE] != 0 {
        return 0;
    }
    if rec[FIRST + RM] != 7 {
        return 0;
    }
    fast_forms::xlat_run(rec)
}

// IN and OUT with a port's number: the accumulator's size is the form's.
fn port_imm(rec: &[u8], acc: usize, port: usize, op_code: u8) -> u64
    requires { Ready rec.now × (Operand rec.now acc × (Operand rec.now port × (op_code < 255))) }
    ensures { (k off : ℕ) → port ≡ place k → 0 < result → (0 < byte_at rec.now (acc + 1)) × ((byte_at rec.now (acc + 6) ≡ 0) × (codes_at rec.now off (two_codes (C.Byte (op_code + bit (data_of (byte_at rec.now (acc + 1))))) (C.UnsignedByte k)) ≡ bytes (unpacked result))) }
{
    let size = rec[acc + SIZE];
    if size == 0 {
        return 0;
    }
    if rec[acc + RM] != 0 {
        return 0;
    }
    fast_forms::unsigned_run(rec, port, op_code + (size - 1))
}

// IN and OUT with the port in DX.
fn port_dx(rec: &[u8], acc: usize, port: usize, op_code: u8) -> u64
    requires { Ready rec.now × (Operand rec.now acc × (Operand rec.now port × (op_code < 255))) }
    ensures { 0 < result → (0 < byte_at rec.now (acc + 1)) × ((byte_at rec.now (acc + 6) ≡ 0) × (((byte_at rec.now (port + 1) ≡ 2) × (byte_at rec.now (port + 6) ≡ 2)) × (unpacked result ≡ (op_code + bit (data_of (byte_at rec.now (acc + 1)))) ∷ []))) }
{
    let size = rec[acc + SIZE];
    if size == 0 {
        return 0;
    }
    if rec[acc + RM] != 0 {
        return 0;
    }
    if rec[port + SIZE] != 2 {
        return 0;
    }
    if rec[port + RM] != 2 {
        return 0;
    }
    fast_forms::byte_run(op_code + (size - 1))
}

// RET, which may have an immediate.
fn ret(rec: &[u8], count: u8) -> u64
    requires { Ready rec.now }
    ensures { (off base : ℕ) → Gives result (line_at rec.now off (pick (eqb count 0) (Ok L.Ret) (Ok L.RetImm)) Z.Word base) }
{
    if count == 0 {
        return fast_forms::byte_run(0xC3);
    }
    fast_forms::ret_run(rec)
}

// The form of a record by one `match`: 16 times its group's number, 4 times the first operand's kind, the second one's kind (0 immediate, 1 register, 2 segment register,
// 3 memory). A second `match` would cost more than all the rest, as its jump cannot be foreseen.
fn dispatch(rec: &[u8], code: u8, count: u8, offset: u16) -> u64
    requires { Ready rec.now }
    ensures { 0 < result → (code < 99) × (decided_at code count rec.now offset ≡ bytes (unpacked result)) }
{
    let row = fast_rows::row_of(code);
    let base = (row % 256) as u8;
    let own = rec[FIRST + SIZE];
    let size = fast_rows::common_of(3 * own + rec[SECOND + SIZE]);
    let acc = rec[FIRST + RM] == 0;
    let jump = rec[FIRST + JUMP_KIND];
    match row / 256 + (4 * rec[FIRST + KIND] + rec[SECOND + KIND]) as u32 {
        // ADD to CMP
        4 => arithmetic_imm(rec, base, size, acc),
        5 => fast_forms::rm_reg(rec, FIRST, SECOND, base, size),
        7 => fast_forms::rm_reg(rec, SECOND, FIRST, base + 2, size),
        12 => arithmetic_imm(rec, base, size, false),
        13 => fast_forms::rm_reg(rec, FIRST, SECOND, base, size),

        // MOV
        20 => fast_forms::reg_imm(rec, size),
        21 => fast_forms::rm_reg(rec, FIRST, SECOND, 0x88, size),
        22 => mov_sreg(rec, size),
        23 => mov_from(rec, size),
        25 => mov_into_sreg(rec, size),
        27 => mov_into_sreg(rec, size),
        28 => fast_forms::rm_imm(rec, 0xC6, 0, size),
        29 => mov_into(rec, size),
        30 => mov_sreg(rec, size),

        // TEST
        36 => test_imm(rec, size),
        37 => fast_forms::rm_reg(rec, FIRST, SECOND, 0x84, size),
        39 => fast_forms::rm_reg(rec, SECOND, FIRST, 0x84, size),
        44 => fast_forms::rm_imm(rec, 0xF6, 0, size),
        45 => fast_forms::rm_reg(rec, FIRST, SECOND, 0x84, size),

        // XCHG
        53 => xchg_regs(rec, size),
        55 => fast_forms::rm_reg(rec, SECOND, FIRST, 0x86, size),
        61 => fast_forms::rm_reg(rec, FIRST, SECOND, 0x86, size),

        // NOT to IDIV
        68..=71 => fast_forms::rm_alone(rec, 0xF6, base, own),
        76..=79 => fast_forms::rm_alone(rec, 0xF6, base, own),

        // INC, DEC
        84..=87 => {
            if own == 2 {
                return fast_forms::reg_run(rec, FIRST, 0x40 + 8 * base);
            }
            fast_forms::rm_alone(rec, 0xFE, base, own)
        },
        92..=95 => fast_forms::rm_alone(rec, 0xFE, base, own),

        // PUSH
        100..=103 => {
            if own != 2 {
                return 0;
            }
            fast_forms::reg_run(rec, FIRST, 0x50)
        },
        104..=107 => fast_forms::segment_run(rec, 0x06),
        108 => word_alone(rec, 0xFE, 6),

        // POP
        116..=119 => {
            if own != 2 {
                return 0;
            }
            fast_forms::reg_run(rec, FIRST, 0x58)
        },
        120 => pop_sreg(rec),
        124 => word_alone(rec, 0x8E, 0),

        // LEA, LES, LDS
        135 => load_run(rec, base),
        151 => load_run(rec, base),

        // The shifts
        164 => shift_one(rec, base, own),
        165 => shift_cl(rec, base, own),
        172 => shift_one(rec, base, own),
        173 => shift_cl(rec, base, own),

        // CALL
        176 => call_near(rec, offset),
        180 => through(rec, 2),
        188 => call_memory(rec),

        // JMP
        192 => jmp_imm(rec, offset),
        196 => through(rec, 4),
        204 => through(rec, 4),

        // Jcc, LOOP
        208..=211 => {
            if jump == 1 {
                return 0;
            }
            if jump == 2 {
                return 0;
            }
            fast_forms::short_run(rec, offset, base)
        },
        224..=227 => {
            if jump == 1 {
                return 0;
            }
            if jump == 2 {
                return 0;
            }
            fast_forms::short_run(rec, offset, base)
        },

        // INT, XLATB
        240 => fast_forms::unsigned_run(rec, FIRST, 0xCD),
        268 => xlat(rec),

        // IN, OUT
        276 => port_imm(rec, FIRST, SECOND, 0xE4),
        277 => port_dx(rec, FIRST, SECOND, 0xEC),
        289 => port_imm(rec, SECOND, FIRST, 0xE6),
        293 => port_dx(rec, SECOND, FIRST, 0xEE),

        // The single bytes
        304..=319 => fast_forms::byte_run(base),
        320..=335 => fast_forms::byte_run(base),

        // AAM, AAD, RET
        336 => fast_run::bare_run(0xD4, 1, 10),
        352 => fast_run::bare_run(0xD5, 1, 10),
        368 => ret(rec, count),
        _ => 0,
    }
}

// A string operation behind its repeat: they are A4 to AF of the operations without operands.
fn repeat_run(code: u8, repeat: u8) -> u64
    ensures { 0 < result → Repeated code repeat result }
{
    let row = fast_rows::row_of(code);
    if row < 0x130A4 {
        return 0;
    }
    if 0x130AF < row {
        return 0;
    }
    if repeat < 0xF2 {
        return 0;
    }
    if 0xF3 < repeat {
        return 0;
    }
    fast_run::bare_run(repeat, 1, (row % 256) as u64)
}

// The bytes of a record's answer at an offset as one number, low byte first, and 2^56 times their count; 0 where the encoder has to be asked. From the repeat on, where
// there is one, the operands stand where a record without it has them.
pub fn packed_at(rec: &[u8], offset: u16) -> u64
    ensures { 0 < result → Packed rec.now offset result }
{
    let d = show_record::repeat_in(rec.len());
    if rec.len() != show_record::RECORD_LENGTH + d {
        return 0;
    }
    let count = rec[COUNT];
    if 2 < count {
        return 0;
    }
    let fields = &rec[d..];
    if fast_operand::are_formed(fields) {
        if d != 0 {
            let repeat = rec[REPEAT];
            if repeat != 0 {
                return repeat_run(rec[OPERATION], repeat);
            }
        }
        return dispatch(fields, rec[OPERATION], count, offset);
    }
    0
}
