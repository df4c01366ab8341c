// The texts of a show file (REFERENCE 9): the first line and a line for each record, or the refusal; with forms, a line under each record, and under its refusal, says why.
#![tactic(auto)]

ghost use Rattle.std.specs.Prelude.{◌≡◌, true, false, [], ◌++◌, ◌*◌, ◌<◌, ◌≤◌, length, take, drop};
ghost use Rattle.mrc_compiler.specs.Choose.{pick};
ghost use Rattle.encode_form.specs.ByBytes.{question_by};
ghost use Rattle.show_file.specs.Show.{record_place, most_records, insn_at};
ghost use Rattle.show_load.specs.Loading.{walk, is_all, accepted};
ghost use Rattle.text_form.specs.Lines.{question_line};
ghost use Rattle.text_line.specs.Numbers.{hex_bytes};
ghost use Rattle.text_line.specs.Steps.{empty_line, appended};
ghost use Rattle.show_text.specs.Text.{first_line, line_of, record_of, refused_line, lines_of, text_records, show_text, most_record, most_text, listed, slice_after};
ghost use Rattle.show_text.specs.Forms.{form_at, question_of};

use encode_run::ByteRun;
use mrc_compiler::encoder::EncodeError;
use show_file::{Header, LoadError, insn_at};
use text_line::{
    Line, TooShort, empty_line, push, push_decimal, push_hex_byte, push_hex_word, push_text,
    write_line,
};

// A show of more records is refused, as one of more than its version has.
const TEXT_RECORDS: u16 = 1000;

// What a slice must hold to be lent: no text is longer.
pub const MOST_TEXT: usize = 32032;

// The same of the text with forms.
pub const MOST_FORMS: usize = 96032;

// ---- lines
fn first_line(header: Header) -> Line
    ensures { result ≡ appended empty_line (first_line header) }
{
    let mark = push_text(empty_line(), b"FSQ ");
    let version = push_decimal(mark, header.version as usize);
    let behind_version = push(version, 0x20);
    let origin = push_hex_word(behind_version, header.origin);
    let behind_origin = push(origin, 0x20);
    let count = push_decimal(behind_origin, header.count as usize);
    push(count, 0x0A)
}

// The bytes of a run.
fn push_run(line: Line, run: ByteRun) -> Line
    requires { run.len ≤ 7 }
    ensures { result ≡ appended line (hex_bytes (take run.len run.bytes)) }
{
    let mut so_far = line;
    for &byte in &run.bytes[..run.len] {
        so_far = push_hex_byte(so_far, byte);
    }
    so_far
}

fn line_of(offset: u16, run: ByteRun) -> Line
    requires { (run.len ≤ 7) × (length run.bytes ≡ 7) }
    ensures { result ≡ appended empty_line (line_of offset (take run.len run.bytes)) }
{
    let place = push_hex_word(empty_line(), offset);
    let behind_place = push(place, 0x20);
    let length = push_decimal(behind_place, run.len);
    let behind_length = push(length, 0x20);
    let bytes = push_run(behind_length, run);
    push(bytes, 0x0A)
}

// The record that is refused, or a hyphen.
fn push_record(line: Line, error: LoadError) -> Line
    ensures { result ≡ appended line (record_of error) }
{
    match error {
        LoadError::NoMark | LoadError::WrongVersion | LoadError::WrongLength => push(line, 0x2D),
        LoadError::UnknownCode(k) | LoadError::Record(k, _) => push_decimal(line, k),
    }
}

fn refused_line(error: LoadError) -> Line
    ensures { result ≡ appended empty_line (refused_line error) }
{
    let refused = push_text(empty_line(), b"refused ");
    let number = push_decimal(refused, error.number() as usize);
    let behind_number = push(number, 0x20);
    let record = push_record(behind_number, error);
    push(record, 0x0A)
}

// ---- grounds
// `forms` is the Bool of `text` and `listed` in specs/Text, which stay: a closure for the line under a record would need it beside itself in each contract.
// The form of record k, which is accepted with the bytes of run, behind its line.
fn push_form_at(line: Line, file: &[u8], n: usize, k: usize, run: ByteRun, forms: bool) -> Line
    requires { (length file.now ≡ record_place file.now n) × (n ≤ most_records) × (k < n) }
    ensures { result ≡ appended line (pick forms (form_at file.now k run.bytes) []) }
{
    if forms {
        let insn = insn_at(file, n, k);
        let written = encode_form::written_in(run, insn);
        text_form::push_form(line, written, insn)
    } else {
        line
    }
}

// The question that refused record k.
fn push_question_at(line: Line, file: &[u8], n: usize, k: usize, error: EncodeError) -> Line
    requires { (length file.now ≡ record_place file.now n) × (n ≤ most_records) × (k < n) }
    ensures { result ≡ appended line (question_line (question_by error (insn_at file.now k))) }
{
    let insn = insn_at(file, n, k);
    let number = encode_form::question_of(error, insn);
    text_form::push_question(line, number)
}

// The question behind the line of a refusal. A file that is asked about its records has so many as its header counts.
fn push_question_of(line: Line, file: &[u8], error: LoadError, forms: bool) -> Line
    requires { accepted text_records file.now ≡ Err error }
    ensures { result ≡ appended line (pick forms (question_of file.now error) []) }
{
    match error {
        LoadError::Record(k, e) if forms => {
            let n = show_file::record_count(file);
            push_question_at(line, file, n, k, e)
        },
        _ => line,
    }
}

// ---- the text
// The text of each record, into the part of out that starts where the last one ended.
fn write_lines(file: &[u8], n: usize, origin: u16, forms: bool, out: &mut [u8]) -> usize
    requires { (length file.now ≡ record_place file.now n) × (n ≤ most_records) × (is_all (walk file.now origin n) ≡ true) × (most_record forms * n ≤ length out.old) }
    ensures value { result ≡ length (lines_of forms file.now origin n) }
    ensures out_after { out.new ≡ lines_of forms file.now origin n ++ drop (length (lines_of forms file.now origin n)) out.old }
{
    let mut at = 0;
    let mut to = 0;
    for k in 0..n {
        let run = show_load::run_at(file, n, origin, k, at).unwrap();
        let offset = show_load::offset_behind(origin, at);
        let line = line_of(offset, run);
        let text = push_form_at(line, file, n, k, run, forms);
        to += write_line(text, &mut out[to..]);
        at += run.len;
    }
    to
}

// The first line, and the texts of the records behind it.
fn write_show(file: &[u8], header: Header, forms: bool, out: &mut [u8]) -> usize
    requires { (length file.now ≡ record_place file.now header.count) × (header.count ≤ text_records) × (is_all (walk file.now header.origin header.count) ≡ true) × (most_text forms ≤ length out.old) }
    ensures value { result ≡ length (show_text forms file.now header) }
    ensures out_after { out.new ≡ show_text forms file.now header ++ drop (length (show_text forms file.now header)) out.old }
{
    let to = write_line(first_line(header), out);
    let n = header.count as usize;
    to + write_lines(file, n, header.origin, forms, &mut out[to..])
}

// What a slice must hold to be lent.
fn most_of(forms: bool) -> usize
    ensures { result ≡ most_text forms }
{
    if forms { MOST_FORMS } else { MOST_TEXT }
}

fn write(file: &[u8], forms: bool, out: &mut [u8]) -> Result<usize, TooShort>
    ensures value { result ≡ listed forms file.now (length out.old) }
    ensures out_after { out.new ≡ slice_after forms file.now out.old }
{
    let most = most_of(forms);
    if out.len() < most {
        return Err(TooShort);
    }
    match show_load::accept(file, TEXT_RECORDS) {
        Err(e) => {
            let text = push_question_of(refused_line(e), file, e, forms);
            Ok(write_line(text, out))
        },
        Ok((header, _)) => Ok(write_show(file, header, forms, out)),
    }
}

// Writes the text of a show file to the front of out, and answers its length. A slice shorter than MOST_TEXT stays as it was.
pub fn write_text(file: &[u8], out: &mut [u8]) -> Result<usize, TooShort>
    ensures value { result ≡ listed false file.now (length out.old) }
    ensures out_after { out.new ≡ slice_after false file.now out.old }
{
    write(file, false, out)
}

// The same of the text with forms, and of MOST_FORMS.
pub fn write_forms(file: &[u8], out: &mut [u8]) -> Result<usize, TooShort>
    ensures value { result ≡ listed true file.now (length out.old) }
    ensures out_after { out.new ≡ slice_after true file.now out.old }
{
    write(file, true, out)
}
