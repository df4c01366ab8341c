// A run of bytes and its emitter (REFERENCE 4): the Rust's ByteEmitter, lent to whoever writes.
#![tactic(auto)]

ghost use Rattle.std.specs.Prelude.{◌≡◌};
ghost use Rattle.encode_run.specs.Run.{empty_run, pushed};

// Seven bytes and how many of them are there.
#[derive(Clone, Copy, Debug, PartialEq, Eq)]
pub struct ByteRun {
    pub bytes: [u8; 7],
    pub len: usize,
}

pub fn empty_run() -> ByteRun
    ensures { result ≡ empty_run }
{
    ByteRun {
        bytes: [0; 7],
        len: 0,
    }
}

// One byte more; a full run stays as it is.
pub fn push(mut run: ByteRun, byte: u8) -> ByteRun
    ensures { result ≡ pushed run byte }
{
    run.emit(byte);
    run
}

impl ByteRun {
    // One byte more, behind the reference.
    pub fn emit(&mut self, byte: u8)
        ensures { self.new ≡ pushed self.old byte }
    {
        if self.len < 7 {
            self.bytes[self.len] = byte;
            self.len += 1;
        }
    }
}
