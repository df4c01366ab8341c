// 003: emits a code list. What a code emits is decided in `encode_fields`; the emitter is lent to whoever writes the fields.
#![tactic(auto)]

ghost use Rattle.std.specs.Prelude.{◌≡◌};
ghost use Rattle.encode_run.specs.Run.{empty_run, appended};
ghost use Rattle.encode_fields.specs.Fields.{field_bytes, code_answer};
ghost use Rattle.encode_codes.specs.Emit.{emitted, told, after, codes_answer, codes_after};

use encode_fields::Field;
use encode_run::ByteRun;
use mrc_compiler::encoder::generate::{Code, Codes};
use mrc_compiler::encoder::{EncodeError, InstructionData};

// Emits one field, if it is there.
fn emit_field(emitter: &mut ByteRun, field: Option<Field>)
    ensures { emitter.new ≡ appended emitter.old (field_bytes field) }
{
    match field {
        None => {}
        Some(Field::Byte(byte)) => emitter.emit(byte),
        Some(Field::Word(word)) => {
            emitter.emit(encode_fields::low_half(word));
            emitter.emit(encode_fields::high_half(word));
        }
    }
}

// Emits one code, or nothing where it is refused. Inlined at both of its places, so that the fields are not put together first.
#[inline(always)]
fn emit_code(
    emitter: &mut ByteRun,
    insn: InstructionData,
    offset: u16,
    code: Code,
) -> Result<(), EncodeError>
    ensures value { result ≡ told (code_answer code insn offset) }
    ensures run_after { emitter.new ≡ after emitter.old (code_answer code insn offset) }
{
    let fields = encode_fields::fields_of(insn, offset, code)?;
    emit_field(emitter, fields.prefix);
    emit_field(emitter, fields.opcode);
    emit_field(emitter, fields.modrm);
    emit_field(emitter, fields.value);
    Ok(())
}

// Emits the codes of a list, one after the other, until one is refused.
pub fn emit_codes(
    emitter: &mut ByteRun,
    insn: InstructionData,
    offset: u16,
    codes: Codes,
) -> Result<(), EncodeError>
    ensures value { result ≡ told (codes_answer codes insn offset) }
    ensures run_after { emitter.new ≡ codes_after emitter.old codes insn offset }
{
    emit_code(emitter, insn, offset, codes.first)?;
    if let Some(code) = codes.second {
        emit_code(emitter, insn, offset, code)?;
    }
    Ok(())
}

// The run of a code list, or the refusal: an empty run is lent to whoever emits the codes. Its parameters are plain, so a caller is lent nothing.
pub fn codes_run(insn: InstructionData, offset: u16, codes: Codes) -> Result<ByteRun, EncodeError>
    ensures { result ≡ emitted empty_run (codes_answer codes insn offset) }
{
    let mut emitter = encode_run::empty_run();
    emit_codes(&mut emitter, insn, offset, codes)?;
    Ok(emitter)
}
