// The operations of 002, in its order: a variant's place, from 0, is its number in a show file.
ghost use Rattle.std.specs.Prelude.{◌≡◌};
ghost use Rattle.mrc_compiler.specs.Operations.{Numbers, number_of, operation_numbered};

#[derive(Clone, Copy, Debug, PartialEq, Eq)]
pub enum Operation {
    // Data transfer
    MOV, // Move
    PUSH, // Push
    POP, // Pop
    XCHG, // Exchange
    IN, // Input from
    OUT, // Output to
    XLATB, // Translate byte to AL
    LEA, // Load effective address to register
    LDS, // Load pointer to DS
    LES, // Load pointer to ES
    LAHF, // Load AH with flags
    SAHF, // Store AH into flags
    PUSHF, // Push flags
    POPF, // Pop flags

    // Arithmetic
    ADD, // Add
    ADC, // Add with carry
    INC, // Increment
    AAA, // ASCII adjust for add
    DAA, // Decimal adjust for add
    SUB, // Subtract
    SBB, // Subtract with borrow
    DEC, // Decrement
    NEG, // Change sign
    CMP, // Compare
    AAS, // ASCII adjust for subtract
    DAS, // Decimal adjust for subtract
    MUL, // Multiply (unsigned)
    IMUL, // Integer multiply (signed)
    AAM, // ASCII adjust for multiply
    DIV, // Divide (unsigned)
    IDIV, // Integer divide (signed)
    AAD, // ASCII adjust for divide
    CBW, // Convert byte to word
    CWD, // Convert word to double word

    // Logic
    NOT, // Invert
    SHL, // Shift logical left (alias: SAL)
    SHR, // Shift logical right
    SAR, // Shift arithmetic right
    ROL, // Rotate left
    ROR, // Rotate right
    RCL, // Rotate through carry flag left
    RCR, // Rotate through carry flag right
    AND, // And
    TEST, // And function to flags, no result
    OR, // Or
    XOR, // Exclusive or

    // String manipulation
    REP, // Repeat
    REPNE, // Repeat if zero
    MOVSB, // Move byte
    MOVSW, // Move word
    CMPSB, // Compare byte
    CMPSW, // Compare word
    SCASB, // Scan byte
    SCASW, // Scan word
    LODSB, // Load byte to AL
    LODSW, // Load word to AX
    STOSB, // Store byte to AL
    STOSW, // Store word to AX

    // Control transfer
    CALL, // Call
    JMP, // Unconditional jump
    RET, // Return from CALL
    JE, // Jump on equal/zero (alias JZ)
    JL, // Jump on less/not greater or equal (alias JNGE)
    JLE, // Jump on less or equal/not greater (alias JNG)
    JB, // Jump on below/not above or equal (alias JNAE)
    JBE, // Jump on below or equal/not above (alias JNA)
    JP, // Jump on parity/parity even (alias JPE)
    JO, // Jump on overflow
    JS, // Jump on sign
    JNE, // Jump on not equal/not zero (alias JNZ)
    JNL, // Jump on not less/greater or equal (alias JGE)
    JNLE, // Jump on not less or equal/greater (alias JG)
    JNB, // Jump on not below/above or equal (alias JAE)
    JNBE, // Jump on not below or equal/above (alias JA)
    JNP, // Jump on not parity/parity odd (alias JPO)
    JNO, // Jump on not overflow
    JNS, // Jump on not sign
    LOOP, // Loop CX times
    LOOPZ, // Loop while zero/equal (alias LOOPZ)
    LOOPNZ, // Loop while not zero/equal (alias LOOPNZ)
    JCXZ, // Jump on CX zero
    INT, // Interrupt
    INT1, // Interrupt 1
    INT3, // Interrupt 3
    INTO, // Interrupt on overflow
    IRET, // Interrupt return

    // Processor control
    CLC, // Clear carry
    CMC, // Complement carry
    STC, // Set carry
    CLD, // Clear direction
    STD, // Set direction
    CLI, // Clear interrupt
    STI, // Set interrupt
    HLT, // Halt
    WAIT, // Wait
    ESC, // Escape (to external device)
    LOCK, // Bus lock prefix

    NOP, // No operation

    // Undocumented
    SALC, // Set AL on carry
}

/// A number that is no operation's.
#[derive(Clone, Copy, Debug, PartialEq, Eq)]
pub struct UnknownOperation(pub u8);

// The operation of each number.
static OPERATIONS: [Operation; 99] = [
    Operation::MOV,
    Operation::PUSH,
    Operation::POP,
    Operation::XCHG,
    Operation::IN,
    Operation::OUT,
    Operation::XLATB,
    Operation::LEA,
    Operation::LDS,
    Operation::LES,
    Operation::LAHF,
    Operation::SAHF,
    Operation::PUSHF,
    Operation::POPF,
    Operation::ADD,
    Operation::ADC,
    Operation::INC,
    Operation::AAA,
    Operation::DAA,
    Operation::SUB,
    Operation::SBB,
    Operation::DEC,
    Operation::NEG,
    Operation::CMP,
    Operation::AAS,
    Operation::DAS,
    Operation::MUL,
    Operation::IMUL,
    Operation::AAM,
    Operation::DIV,
    Operation::IDIV,
    Operation::AAD,
    Operation::CBW,
    Operation::CWD,
    Operation::NOT,
    Operation::SHL,
    Operation::SHR,
    Operation::SAR,
    Operation::ROL,
    Operation::ROR,
    Operation::RCL,
    Operation::RCR,
    Operation::AND,
    Operation::TEST,
    Operation::OR,
    Operation::XOR,
    Operation::REP,
    Operation::REPNE,
    Operation::MOVSB,
    Operation::MOVSW,
    Operation::CMPSB,
    Operation::CMPSW,
    Operation::SCASB,
    Operation::SCASW,
    Operation::LODSB,
    Operation::LODSW,
    Operation::STOSB,
    Operation::STOSW,
    Operation::CALL,
    Operation::JMP,
    Operation::RET,
    Operation::JE,
    Operation::JL,
    Operation::JLE,
    Operation::JB,
    Operation::JBE,
    Operation::JP,
    Operation::JO,
    Operation::JS,
    Operation::JNE,
    Operation::JNL,
    Operation::JNLE,
    Operation::JNB,
    Operation::JNBE,
    Operation::JNP,
    Operation::JNO,
    Operation::JNS,
    Operation::LOOP,
    Operation::LOOPZ,
    Operation::LOOPNZ,
    Operation::JCXZ,
    Operation::INT,
    Operation::INT1,
    Operation::INT3,
    Operation::INTO,
    Operation::IRET,
    Operation::CLC,
    Operation::CMC,
    Operation::STC,
    Operation::CLD,
    Operation::STD,
    Operation::CLI,
    Operation::STI,
    Operation::HLT,
    Operation::WAIT,
    Operation::ESC,
    Operation::LOCK,
    Operation::NOP,
    Operation::SALC,
];

impl TryFrom<u8> for Operation {
    type Error = UnknownOperation;

    ghost try_from_gives = { Numbers };

    fn try_from(number: u8) -> Result<Self, UnknownOperation> {
        match OPERATIONS.get(usize::from(number)) {
            Some(&operation) => Ok(operation),
            None => Err(UnknownOperation(number)),
        }
    }
}

impl Operation {
    // The operation's number.
    pub fn number(self) -> u8
        ensures { result ≡ number_of self }
    {
        self as u8
    }

    // The operation of a number, where it is some operation's.
    pub fn numbered(number: u8) -> Option<Operation>
        ensures { result ≡ operation_numbered number }
    {
        Operation::try_from(number).ok()
    }
}
