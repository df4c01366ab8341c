// What of 001 the builders stand on: spans, registers, segments, sizes and the encodings of indirect addresses.
ghost use Rattle.std.specs.Prelude.{◌≡◌};
ghost use Rattle.mrc_compiler.specs.Registers.{byte_register, word_register, register, data_size_of, segment, indirect_encoding};

// The two ends of a piece of the source text.
#[derive(Clone, Copy, Debug, PartialEq, Eq)]
pub struct Span {
    pub start: u32,
    pub end: u32,
}

#[derive(Clone, Copy, Debug, PartialEq, Eq)]
pub enum ByteRegister {
    Al,
    Cl,
    Dl,
    Bl,
    Ah,
    Ch,
    Dh,
    Bh,
}

impl ByteRegister {
    // The register's number in the reg and r/m fields of ModRM.
    pub fn encoding(self) -> u8
        ensures { result ≡ byte_register self }
    {
        self as u8
    }
}

#[derive(Clone, Copy, Debug, PartialEq, Eq)]
pub enum WordRegister {
    Ax, // accumulator
    Cx, // count
    Dx, // data
    Bx, // base
    Sp, // stack pointer
    Bp, // base pointer
    Si, // source index
    Di, // destination index
}

impl WordRegister {
    // The register's number in the reg and r/m fields of ModRM.
    pub fn encoding(self) -> u8
        ensures { result ≡ word_register self }
    {
        self as u8
    }
}

#[derive(Clone, Copy, Debug, PartialEq, Eq)]
pub enum Register {
    Byte(ByteRegister),
    Word(WordRegister),
}

impl Register {
    // The size of what the register holds.
    pub fn data_size(self) -> DataSize
        ensures { result ≡ data_size_of self }
    {
        match self {
            Register::Byte(_) => DataSize::Byte,
            Register::Word(_) => DataSize::Word,
        }
    }

    // The number of the byte or word register.
    pub fn encoding(self) -> u8
        ensures { result ≡ register self }
    {
        match self {
            Register::Byte(r) => r.encoding(),
            Register::Word(r) => r.encoding(),
        }
    }
}

#[derive(Clone, Copy, Debug, PartialEq, Eq)]
pub enum Segment {
    ES,
    CS,
    SS,
    DS,
}

impl Segment {
    // The segment register's number in the reg field of ModRM.
    pub fn encoding(self) -> u8
        ensures { result ≡ segment self }
    {
        self as u8
    }
}

#[derive(Clone, Copy, Debug, PartialEq, Eq)]
pub enum DataSize {
    Byte,
    Word,
}

#[derive(Clone, Copy, Debug, PartialEq, Eq)]
pub enum IndirectEncoding {
    BxSi, // [BX + SI]
    BxDi, // [BX + DI]
    BpSi, // [BP + SI]
    BpDi, // [BP + DI]
    Si, // [SI]
    Di, // [DI]
    Bp, // [BP]
    Bx, // [BX]
}

impl IndirectEncoding {
    // The address's number in the r/m field of ModRM.
    pub fn encoding(self) -> u8
        ensures { result ≡ indirect_encoding self }
    {
        self as u8
    }
}
