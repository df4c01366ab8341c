// The groups of operations: of them document 01's code list and questions speak, and each is a group function of 000.
#![tactic(auto)]

ghost use Rattle.std.specs.Prelude.{◌≡◌};
ghost use Rattle.encode_groups.specs.Grouping.{grouped_of};

use mrc_compiler::operations::Operation;

#[derive(Clone, Copy, Debug, PartialEq, Eq)]
pub enum Group {
    // ADD OR ADC SBB AND SUB XOR CMP.
    Arithmetic,

    // NOT NEG MUL IMUL DIV IDIV.
    Unary,
    Mov,
    Test,
    Xchg,
    IncDec,
    Push,
    Pop,
    Ret,
    Lea,
    LesLds,

    // ROL ROR RCL RCR SHL SHR SAR.
    Shift,
    Call,
    Jmp,
    Jcc,

    // LOOPNZ LOOPZ LOOP JCXZ.
    Loopc,

    // The single bytes; LOCK REPNE REP.
    NoOperands,
    Prefixes,
    Int,
    Aam,
    Aad,
    Xlat,
    In,
    Out,

    // INT1 ESC: of the `op => todo!` of 000.
    Unsupported,
}

// An operation's group, and what tells it from the others of the group: an opcode, or a digit.
#[derive(Clone, Copy, Debug, PartialEq, Eq)]
pub struct Grouped {
    pub group: Group,
    pub base: u8,
}

// The first step of 000's dispatch, which the lister takes too.
pub fn group_of(operation: Operation) -> Grouped
    ensures { result ≡ grouped_of operation }
{
    match operation {
        Operation::ADD => Grouped {
            group: Group::Arithmetic,
            base: 0x00,
        },
        Operation::OR => Grouped {
            group: Group::Arithmetic,
            base: 0x08,
        },
        Operation::ADC => Grouped {
            group: Group::Arithmetic,
            base: 0x10,
        },
        Operation::SBB => Grouped {
            group: Group::Arithmetic,
            base: 0x18,
        },
        Operation::AND => Grouped {
            group: Group::Arithmetic,
            base: 0x20,
        },
        Operation::SUB => Grouped {
            group: Group::Arithmetic,
            base: 0x28,
        },
        Operation::XOR => Grouped {
            group: Group::Arithmetic,
            base: 0x30,
        },
        Operation::CMP => Grouped {
            group: Group::Arithmetic,
            base: 0x38,
        },
        Operation::NOT => Grouped {
            group: Group::Unary,
            base: 0x02,
        },
        Operation::NEG => Grouped {
            group: Group::Unary,
            base: 0x03,
        },
        Operation::MUL => Grouped {
            group: Group::Unary,
            base: 0x04,
        },
        Operation::IMUL => Grouped {
            group: Group::Unary,
            base: 0x05,
        },
        Operation::DIV => Grouped {
            group: Group::Unary,
            base: 0x06,
        },
        Operation::IDIV => Grouped {
            group: Group::Unary,
            base: 0x07,
        },
        Operation::MOV => Grouped {
            group: Group::Mov,
            base: 0x00,
        },
        Operation::TEST => Grouped {
            group: Group::Test,
            base: 0x00,
        },
        Operation::XCHG => Grouped {
            group: Group::Xchg,
            base: 0x00,
        },
        Operation::INC => Grouped {
            group: Group::IncDec,
            base: 0x00,
        },
        Operation::DEC => Grouped {
            group: Group::IncDec,
            base: 0x01,
        },
        Operation::PUSH => Grouped {
            group: Group::Push,
            base: 0x00,
        },
        Operation::POP => Grouped {
            group: Group::Pop,
            base: 0x00,
        },
        Operation::RET => Grouped {
            group: Group::Ret,
            base: 0xC2,
        },
        Operation::LEA => Grouped {
            group: Group::Lea,
            base: 0x8D,
        },
        Operation::LES => Grouped {
            group: Group::LesLds,
            base: 0xC4,
        },
        Operation::LDS => Grouped {
            group: Group::LesLds,
            base: 0xC5,
        },
        Operation::ROL => Grouped {
            group: Group::Shift,
            base: 0x00,
        },
        Operation::ROR => Grouped {
            group: Group::Shift,
            base: 0x01,
        },
        Operation::RCL => Grouped {
            group: Group::Shift,
            base: 0x02,
        },
        Operation::RCR => Grouped {
            group: Group::Shift,
            base: 0x03,
        },
        Operation::SHL => Grouped {
            group: Group::Shift,
            base: 0x04,
        },
        Operation::SHR => Grouped {
            group: Group::Shift,
            base: 0x05,
        },
        Operation::SAR => Grouped {
            group: Group::Shift,
            base: 0x07,
        },
        Operation::CALL => Grouped {
            group: Group::Call,
            base: 0x00,
        },
        Operation::JMP => Grouped {
            group: Group::Jmp,
            base: 0x00,
        },
        Operation::JO => Grouped {
            group: Group::Jcc,
            base: 0x70,
        },
        Operation::JNO => Grouped {
            group: Group::Jcc,
            base: 0x71,
        },
        Operation::JB => Grouped {
            group: Group::Jcc,
            base: 0x72,
        },
        Operation::JNB => Grouped {
            group: Group::Jcc,
            base: 0x73,
        },
        Operation::JE => Grouped {
            group: Group::Jcc,
            base: 0x74,
        },
        Operation::JNE => Grouped {
            group: Group::Jcc,
            base: 0x75,
        },
        Operation::JBE => Grouped {
            group: Group::Jcc,
            base: 0x76,
        },
        Operation::JNBE => Grouped {
            group: Group::Jcc,
            base: 0x77,
        },
        Operation::JS => Grouped {
            group: Group::Jcc,
            base: 0x78,
        },
        Operation::JNS => Grouped {
            group: Group::Jcc,
            base: 0x79,
        },
        Operation::JP => Grouped {
            group: Group::Jcc,
            base: 0x7A,
        },
        Operation::JNP => Grouped {
            group: Group::Jcc,
            base: 0x7B,
        },
        Operation::JL => Grouped {
            group: Group::Jcc,
            base: 0x7C,
        },
        Operation::JNL => Grouped {
            group: Group::Jcc,
            base: 0x7D,
        },
        Operation::JLE => Grouped {
            group: Group::Jcc,
            base: 0x7E,
        },
        Operation::JNLE => Grouped {
            group: Group::Jcc,
            base: 0x7F,
        },
        Operation::LOOPNZ => Grouped {
            group: Group::Loopc,
            base: 0xE0,
        },
        Operation::LOOPZ => Grouped {
            group: Group::Loopc,
            base: 0xE1,
        },
        Operation::LOOP => Grouped {
            group: Group::Loopc,
            base: 0xE2,
        },
        Operation::JCXZ => Grouped {
            group: Group::Loopc,
            base: 0xE3,
        },
        Operation::DAA => Grouped {
            group: Group::NoOperands,
            base: 0x27,
        },
        Operation::DAS => Grouped {
            group: Group::NoOperands,
            base: 0x2F,
        },
        Operation::AAA => Grouped {
            group: Group::NoOperands,
            base: 0x37,
        },
        Operation::AAS => Grouped {
            group: Group::NoOperands,
            base: 0x3F,
        },
        Operation::NOP => Grouped {
            group: Group::NoOperands,
            base: 0x90,
        },
        Operation::CBW => Grouped {
            group: Group::NoOperands,
            base: 0x98,
        },
        Operation::CWD => Grouped {
            group: Group::NoOperands,
            base: 0x99,
        },
        Operation::INT3 => Grouped {
            group: Group::NoOperands,
            base: 0xCC,
        },
        Operation::INTO => Grouped {
            group: Group::NoOperands,
            base: 0xCE,
        },
        Operation::IRET => Grouped {
            group: Group::NoOperands,
            base: 0xCF,
        },
        Operation::SALC => Grouped {
            group: Group::NoOperands,
            base: 0xD6,
        },
        Operation::HLT => Grouped {
            group: Group::NoOperands,
            base: 0xF4,
        },
        Operation::CMC => Grouped {
            group: Group::NoOperands,
            base: 0xF5,
        },
        Operation::CLC => Grouped {
            group: Group::NoOperands,
            base: 0xF8,
        },
        Operation::STC => Grouped {
            group: Group::NoOperands,
            base: 0xF9,
        },
        Operation::CLI => Grouped {
            group: Group::NoOperands,
            base: 0xFA,
        },
        Operation::STI => Grouped {
            group: Group::NoOperands,
            base: 0xFB,
        },
        Operation::CLD => Grouped {
            group: Group::NoOperands,
            base: 0xFC,
        },
        Operation::STD => Grouped {
            group: Group::NoOperands,
            base: 0xFD,
        },
        Operation::PUSHF => Grouped {
            group: Group::NoOperands,
            base: 0x9C,
        },
        Operation::POPF => Grouped {
            group: Group::NoOperands,
            base: 0x9D,
        },
        Operation::SAHF => Grouped {
            group: Group::NoOperands,
            base: 0x9E,
        },
        Operation::LAHF => Grouped {
            group: Group::NoOperands,
            base: 0x9F,
        },
        Operation::MOVSB => Grouped {
            group: Group::NoOperands,
            base: 0xA4,
        },
        Operation::CMPSB => Grouped {
            group: Group::NoOperands,
            base: 0xA6,
        },
        Operation::STOSB => Grouped {
            group: Group::NoOperands,
            base: 0xAA,
        },
        Operation::LODSB => Grouped {
            group: Group::NoOperands,
            base: 0xAC,
        },
        Operation::SCASB => Grouped {
            group: Group::NoOperands,
            base: 0xAE,
        },
        Operation::MOVSW => Grouped {
            group: Group::NoOperands,
            base: 0xA5,
        },
        Operation::CMPSW => Grouped {
            group: Group::NoOperands,
            base: 0xA7,
        },
        Operation::STOSW => Grouped {
            group: Group::NoOperands,
            base: 0xAB,
        },
        Operation::LODSW => Grouped {
            group: Group::NoOperands,
            base: 0xAD,
        },
        Operation::SCASW => Grouped {
            group: Group::NoOperands,
            base: 0xAF,
        },
        Operation::LOCK => Grouped {
            group: Group::Prefixes,
            base: 0xF0,
        },
        Operation::REPNE => Grouped {
            group: Group::Prefixes,
            base: 0xF2,
        },
        Operation::REP => Grouped {
            group: Group::Prefixes,
            base: 0xF3,
        },
        Operation::INT => Grouped {
            group: Group::Int,
            base: 0x00,
        },
        Operation::AAM => Grouped {
            group: Group::Aam,
            base: 0x00,
        },
        Operation::AAD => Grouped {
            group: Group::Aad,
            base: 0x00,
        },
        Operation::XLATB => Grouped {
            group: Group::Xlat,
            base: 0x00,
        },
        Operation::IN => Grouped {
            group: Group::In,
            base: 0x00,
        },
        Operation::OUT => Grouped {
            group: Group::Out,
            base: 0x00,
        },
        Operation::INT1 => Grouped {
            group: Group::Unsupported,
            base: 0x00,
        },
        Operation::WAIT => Grouped {
            group: Group::NoOperands,
            base: 0x9B,
        },
        Operation::ESC => Grouped {
            group: Group::Unsupported,
            base: 0x00,
        },
    }
}
