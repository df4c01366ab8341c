// Converts the show from a 186 module on standard input to one for the 8086 on standard output (REFERENCE 16).
#![tactic(auto)]

use convert_spec::ConvertError;
use input::Failure;
use show_file::LoadError;
use std::io;

// Says on standard error the refusal with that number, of the file.
fn print_refused(rt: &impl Eprint, number: u8) {
    let _ = eprintln!(rt; "refused {number} -");
}

// Says on standard error the refusal with that number, of a record.
fn print_refused_record(rt: &impl Eprint, number: u8, record: usize) {
    let _ = eprintln!(rt; "refused {number} {record}");
}

// Says a refusal of the loader.
fn print_load_error(rt: &impl Eprint, error: LoadError) {
    let number = error.number();
    match error {
        LoadError::UnknownCode(k) => print_refused_record(rt, number, k),
        LoadError::Record(k, _) => print_refused_record(rt, number, k),
        LoadError::NoMark => print_refused(rt, number),
        LoadError::WrongVersion => print_refused(rt, number),
        LoadError::WrongLength => print_refused(rt, number),
    }
}

// Says a refusal.
fn print_error(rt: &impl Eprint, error: ConvertError) {
    let number = error.number();
    match error {
        ConvertError::Load(e) => print_load_error(rt, e),
        ConvertError::ShiftCountOutOfRange(k) => print_refused_record(rt, number, k),
        ConvertError::NoRecordAtTarget(k) => print_refused_record(rt, number, k),
        ConvertError::SliceTooShort => print_refused(rt, number),
    }
}

// Prints the converted file, by way of out, or says the refusal.
fn print_converted(rt: &(impl Print + Eprint), file: &[u8], out: &mut [u8]) -> io::Result<()> {
    match show_convert::convert(file, out) {
        Ok(n) => rt.write_all(&out[..n]),
        Err(error) => {
            print_error(rt, error);
            Ok(())
        }
    }
}

// The buffer is longer than 1,000 records, so that of an input that does not fit the length is still wrong; the written file is the longest.
fn convert_input(rt: &(impl Input + Print + Eprint)) -> Result<(), Failure> {
    let mut space = [0; 65536];
    let n = input::read_input(&mut rt.reader(), &mut space).map_err(Failure::Input)?;
    let mut out = [0; 56009];
    print_converted(rt, &space[..n], &mut out).map_err(Failure::Output)
}

fn main(rt: HostRuntime) {
    let usage = b"usage: fsq186 < SHOW.fsq > CONVERTED.fsq\n";
    if !input::called_alone(&rt.stderr(), input::word_count(&rt), usage) {
        return;
    }
    if let Err(failure) = convert_input(&rt) {
        let _ = eprintln!(rt; "{failure}");
    }
}
