// The table of 256 rows: what a first byte says of the form, its operation and its slots.
#![tactic(auto)]

ghost use Rattle.std.specs.Prelude.{◌≡◌, ◌≤◌, get_or};
ghost use Rattle.mrc_compiler.specs.Choose.{pick, both};
ghost use Rattle.x86.specs.Reading.{digit, allows_second, has_second};
ghost use Rattle.x86.specs.Rows.{rows, by_digit};
ghost use Rattle.read_table.specs.Rows.{digits_of, line_of, operation_at, found_of, exchanges, tests_register, extension_at, form_at};

use mrc_compiler::operations::Operation;
use x86_forms::{Class, Extension, FormName, Restriction};

// The table of 256 rows: for each first byte the number of its shape (x86, specs/Rows), 0 where no form begins.
static ROWS: [u8; 256] = [
    1, // 00
    2, // 01
    3, // 02
    4, // 03
    5, // 04
    6, // 05
    7, // 06
    8, // 07
    1, // 08
    2, // 09
    3, // 0A
    4, // 0B
    5, // 0C
    6, // 0D
    7, // 0E
    0, // 0F
    1, // 10
    2, // 11
    3, // 12
    4, // 13
    5, // 14
    6, // 15
    7, // 16
    8, // 17
    1, // 18
    2, // 19
    3, // 1A
    4, // 1B
    5, // 1C
    6, // 1D
    7, // 1E
    8, // 1F
    1, // 20
    2, // 21
    3, // 22
    4, // 23
    5, // 24
    6, // 25
    0, // 26
    9, // 27
    1, // 28
    2, // 29
    3, // 2A
    4, // 2B
    5, // 2C
    6, // 2D
    0, // 2E
    9, // 2F
    1, // 30
    2, // 31
    3, // 32
    4, // 33
    5, // 34
    6, // 35
    0, // 36
    9, // 37
    1, // 38
    2, // 39
    3, // 3A
    4, // 3B
    5, // 3C
    6, // 3D
    0, // 3E
    9, // 3F
    10, // 40
    10, // 41
    10, // 42
    10, // 43
    10, // 44
    10, // 45
    10, // 46
    10, // 47
    10, // 48
    10, // 49
    10, // 4A
    10, // 4B
    10, // 4C
    10, // 4D
    10, // 4E
    10, // 4F
    10, // 50
    10, // 51
    10, // 52
    10, // 53
    10, // 54
    10, // 55
    10, // 56
    10, // 57
    10, // 58
    10, // 59
    10, // 5A
    10, // 5B
    10, // 5C
    10, // 5D
    10, // 5E
    10, // 5F
    0, // 60
    0, // 61
    0, // 62
    0, // 63
    0, // 64
    0, // 65
    0, // 66
    0, // 67
    0, // 68
    0, // 69
    0, // 6A
    0, // 6B
    0, // 6C
    0, // 6D
    0, // 6E
    0, // 6F
    11, // 70
    11, // 71
    11, // 72
    11, // 73
    11, // 74
    11, // 75
    11, // 76
    11, // 77
    11, // 78
    11, // 79
    11, // 7A
    11, // 7B
    11, // 7C
    11, // 7D
    11, // 7E
    11, // 7F
    12, // 80
    13, // 81
    0, // 82
    14, // 83
    1, // 84
    2, // 85
    3, // 86
    4, // 87
    1, // 88
    2, // 89
    3, // 8A
    4, // 8B
    15, // 8C
    16, // 8D
    17, // 8E
    42, // 8F
    18, // 90
    18, // 91
    18, // 92
    18, // 93
    18, // 94
    18, // 95
    18, // 96
    18, // 97
    9, // 98
    9, // 99
    0, // 9A
    9, // 9B
    9, // 9C
    9, // 9D
    9, // 9E
    9, // 9F
    19, // A0
    20, // A1
    21, // A2
    22, // A3
    9, // A4
    9, // A5
    9, // A6
    9, // A7
    5, // A8
    6, // A9
    9, // AA
    9, // AB
    9, // AC
    9, // AD
    9, // AE
    9, // AF
    23, // B0
    23, // B1
    23, // B2
    23, // B3
    23, // B4
    23, // B5
    23, // B6
    23, // B7
    24, // B8
    24, // B9
    24, // BA
    24, // BB
    24, // BC
    24, // BD
    24, // BE
    24, // BF
    0, // C0
    0, // C1
    44, // C2
    9, // C3
    16, // C4
    16, // C5
    12, // C6
    13, // C7
    0, // C8
    0, // C9
    0, // CA
    0, // CB
    9, // CC
    25, // CD
    9, // CE
    9, // CF
    26, // D0
    27, // D1
    28, // D2
    29, // D3
    30, // D4
    30, // D5
    9, // D6
    31, // D7
    0, // D8
    0, // D9
    0, // DA
    0, // DB
    0, // DC
    0, // DD
    0, // DE
    0, // DF
    11, // E0
    11, // E1
    11, // E2
    11, // E3
    5, // E4
    32, // E5
    33, // E6
    34, // E7
    35, // E8
    35, // E9
    36, // EA
    11, // EB
    37, // EC
    38, // ED
    39, // EE
    40, // EF
    9, // F0
    0, // F1
    9, // F2
    9, // F3
    9, // F4
    9, // F5
    45, // F6
    46, // F7
    9, // F8
    9, // F9
    9, // FA
    9, // FB
    9, // FC
    9, // FD
    41, // FE
    47, // FF
];

// The numbers of operations by lines: 0 to 255 by first byte, then eight lines for the digits of 80, 81 and 83; 8F; C6 and C7; D0 to D3; F6 and F7; FE; FF; then the
// line of none. 99, which is no operation's, where no form begins, and in the first 256 where the digit decides.
static OPERATIONS: [u8; 313] = [
    14, // 00 ADD
    14, // 01 ADD
    14, // 02 ADD
    14, // 03 ADD
    14, // 04 ADD
    14, // 05 ADD
    1, // 06 PUSH
    2, // 07 POP
    44, // 08 OR
    44, // 09 OR
    44, // 0A OR
    44, // 0B OR
    44, // 0C OR
    44, // 0D OR
    1, // 0E PUSH
    99, // 0F
    15, // 10 ADC
    15, // 11 ADC
    15, // 12 ADC
    15, // 13 ADC
    15, // 14 ADC
    15, // 15 ADC
    1, // 16 PUSH
    2, // 17 POP
    20, // 18 SBB
    20, // 19 SBB
    20, // 1A SBB
    20, // 1B SBB
    20, // 1C SBB
    20, // 1D SBB
    1, // 1E PUSH
    2, // 1F POP
    42, // 20 AND
    42, // 21 AND
    42, // 22 AND
    42, // 23 AND
    42, // 24 AND
    42, // 25 AND
    99, // 26
    18, // 27 DAA
    19, // 28 SUB
    19, // 29 SUB
    19, // 2A SUB
    19, // 2B SUB
    19, // 2C SUB
    19, // 2D SUB
    99, // 2E
    25, // 2F DAS
    45, // 30 XOR
    45, // 31 XOR
    45, // 32 XOR
    45, // 33 XOR
    45, // 34 XOR
    45, // 35 XOR
    99, // 36
    17, // 37 AAA
    23, // 38 CMP
    23, // 39 CMP
    23, // 3A CMP
    23, // 3B CMP
    23, // 3C CMP
    23, // 3D CMP
    99, // 3E
    24, // 3F AAS
    16, // 40 INC
    16, // 41 INC
    16, // 42 INC
    16, // 43 INC
    16, // 44 INC
    16, // 45 INC
    16, // 46 INC
    16, // 47 INC
    21, // 48 DEC
    21, // 49 DEC
    21, // 4A DEC
    21, // 4B DEC
    21, // 4C DEC
    21, // 4D DEC
    21, // 4E DEC
    21, // 4F DEC
    1, // 50 PUSH
    1, // 51 PUSH
    1, // 52 PUSH
    1, // 53 PUSH
    1, // 54 PUSH
    1, // 55 PUSH
    1, // 56 PUSH
    1, // 57 PUSH
    2, // 58 POP
    2, // 59 POP
    2, // 5A POP
    2, // 5B POP
    2, // 5C POP
    2, // 5D POP
    2, // 5E POP
    2, // 5F POP
    99, // 60
    99, // 61
    99, // 62
    99, // 63
    99, // 64
    99, // 65
    99, // 66
    99, // 67
    99, // 68
    99, // 69
    99, // 6A
    99, // 6B
    99, // 6C
    99, // 6D
    99, // 6E
    99, // 6F
    67, // 70 JO
    75, // 71 JNO
    64, // 72 JB
    72, // 73 JNB
    61, // 74 JE
    69, // 75 JNE
    65, // 76 JBE
    73, // 77 JNBE
    68, // 78 JS
    76, // 79 JNS
    66, // 7A JP
    74, // 7B JNP
    62, // 7C JL
    70, // 7D JNL
    63, // 7E JLE
    71, // 7F JNLE
    99, // 80
    99, // 81
    99, // 82
    99, // 83
    43, // 84 TEST
    43, // 85 TEST
    3, // 86 XCHG
    3, // 87 XCHG
    0, // 88 MOV
    0, // 89 MOV
    0, // 8A MOV
    0, // 8B MOV
    0, // 8C MOV
    7, // 8D LEA
    0, // 8E MOV
    99, // 8F
    3, // 90 XCHG
    3, // 91 XCHG
    3, // 92 XCHG
    3, // 93 XCHG
    3, // 94 XCHG
    3, // 95 XCHG
    3, // 96 XCHG
    3, // 97 XCHG
    32, // 98 CBW
    33, // 99 CWD
    99, // 9A
    94, // 9B WAIT
    12, // 9C PUSHF
    13, // 9D POPF
    11, // 9E SAHF
    10, // 9F LAHF
    0, // A0 MOV
    0, // A1 MOV
    0, // A2 MOV
    0, // A3 MOV
    48, // A4 MOVSB
    49, // A5 MOVSW
    50, // A6 CMPSB
    51, // A7 CMPSW
    43, // A8 TEST
    43, // A9 TEST
    56, // AA STOSB
    57, // AB STOSW
    54, // AC LODSB
    55, // AD LODSW
    52, // AE SCASB
    53, // AF SCASW
    0, // B0 MOV
    0, // B1 MOV
    0, // B2 MOV
    0, // B3 MOV
    0, // B4 MOV
    0, // B5 MOV
    0, // B6 MOV
    0, // B7 MOV
    0, // B8 MOV
    0, // B9 MOV
    0, // BA MOV
    0, // BB MOV
    0, // BC MOV
    0, // BD MOV
    0, // BE MOV
    0, // BF MOV
    99, // C0
    99, // C1
    60, // C2 RET
    60, // C3 RET
    9, // C4 LES
    8, // C5 LDS
    99, // C6
    99, // C7
    99, // C8
    99, // C9
    99, // CA
    99, // CB
    83, // CC INT3
    81, // CD INT
    84, // CE INTO
    85, // CF IRET
    99, // D0
    99, // D1
    99, // D2
    99, // D3
    28, // D4 AAM
    31, // D5 AAD
    98, // D6 SALC
    6, // D7 XLATB
    99, // D8
    99, // D9
    99, // DA
    99, // DB
    99, // DC
    99, // DD
    99, // DE
    99, // DF
    79, // E0 LOOPNZ
    78, // E1 LOOPZ
    77, // E2 LOOP
    80, // E3 JCXZ
    4, // E4 IN
    4, // E5 IN
    5, // E6 OUT
    5, // E7 OUT
    58, // E8 CALL
    59, // E9 JMP
    59, // EA JMP
    59, // EB JMP
    4, // EC IN
    4, // ED IN
    5, // EE OUT
    5, // EF OUT
    96, // F0 LOCK
    99, // F1
    47, // F2 REPNE
    46, // F3 REP
    93, // F4 HLT
    87, // F5 CMC
    99, // F6
    99, // F7
    86, // F8 CLC
    88, // F9 STC
    91, // FA CLI
    92, // FB STI
    89, // FC CLD
    90, // FD STD
    99, // FE
    99, // FF
    14, // 80 /0 ADD
    44, // 80 /1 OR
    15, // 80 /2 ADC
    20, // 80 /3 SBB
    42, // 80 /4 AND
    19, // 80 /5 SUB
    45, // 80 /6 XOR
    23, // 80 /7 CMP
    2, // 8F /0 POP
    99, // 8F /1
    99, // 8F /2
    99, // 8F /3
    99, // 8F /4
    99, // 8F /5
    99, // 8F /6
    99, // 8F /7
    0, // C6 /0 MOV
    99, // C6 /1
    99, // C6 /2
    99, // C6 /3
    99, // C6 /4
    99, // C6 /5
    99, // C6 /6
    99, // C6 /7
    38, // D0 /0 ROL
    39, // D0 /1 ROR
    40, // D0 /2 RCL
    41, // D0 /3 RCR
    35, // D0 /4 SHL
    36, // D0 /5 SHR
    99, // D0 /6
    37, // D0 /7 SAR
    43, // F6 /0 TEST
    99, // F6 /1
    34, // F6 /2 NOT
    22, // F6 /3 NEG
    26, // F6 /4 MUL
    27, // F6 /5 IMUL
    29, // F6 /6 DIV
    30, // F6 /7 IDIV
    16, // FE /0 INC
    21, // FE /1 DEC
    99, // FE /2
    99, // FE /3
    99, // FE /4
    99, // FE /5
    99, // FE /6
    99, // FE /7
    16, // FF /0 INC
    21, // FF /1 DEC
    58, // FF /2 CALL
    58, // FF /3 CALL
    59, // FF /4 JMP
    99, // FF /5
    1, // FF /6 PUSH
    99, // FF /7
    99, // none
];

// The row of a first byte, 0 where no form begins: the table has a number for each of the 256 (x86, specs/Rows, `rows`).
pub fn row_of(c: u8) -> u8
    ensures { result ≡ get_or rows c 0 }
{
    ROWS[c as usize]
}

// The shape of a row, where its first byte is followed by x: in three rows the digit decides.
pub fn shape_row(row: u8, x: u8) -> u8
    ensures { result ≡ by_digit row (digit x) }
{
    let d = x / 8 % 8;
    match row {
        45 => if d == 0 { 12 } else { 41 },
        46 => if d == 0 { 13 } else { 42 },
        47 => if d == 3 { 43 } else { 42 },
        _ => row,
    }
}

// The operation of a line.
fn operation_at(line: u16) -> Option<Operation>
    requires { line ≤ 312 }
    ensures { result ≡ operation_at line }
{
    Operation::numbered(OPERATIONS[line as usize])
}

// The first line of the digits of a first byte whose digit decides.
fn digits_of(c: u8) -> u16
    ensures value { result ≡ digits_of c }
    ensures last { result ≤ 304 }
{
    if c < 0x84 {
        return 256;
    }
    if c < 0xC0 {
        return 264;
    }
    if c < 0xD0 {
        return 272;
    }
    if c < 0xF0 {
        return 280;
    }
    if c < 0xFE {
        return 288;
    }
    if c == 0xFE { 296 } else { 304 }
}

// The line of first byte c and second byte x in a row of this class; 312, the last, where they have no operation.
fn line_of(class: Class, c: u8, x: u8) -> u16
    ensures value { result ≡ line_of class c x }
    ensures last { result ≤ 312 }
{
    match class {
        Class::Plain | Class::PlusRegister | Class::PlusSegment | Class::ModRm => c as u16,
        Class::Digit => digits_of(c) + (x / 8 % 8) as u16,
        Class::Second0A if x == 0x0A => c as u16,
        Class::Second0A | Class::Unused => 312,
    }
}

// Their operation, whatever the slots say.
fn found_of(class: Class, c: u8, x: u8) -> Option<Operation>
    ensures { result ≡ found_of class c x }
{
    operation_at(line_of(class, c, x))
}

// The form that first byte c and second byte x have in a row of this class.
pub fn form_at(class: Class, c: u8, x: u8) -> FormName
    ensures { result ≡ form_at class c x }
{
    match class {
        Class::Unused => FormName {
            opcode: 0,
            extension: Extension::None,
        },
        Class::Plain => FormName {
            opcode: c,
            extension: Extension::None,
        },
        Class::PlusRegister => FormName {
            opcode: c / 8 * 8,
            extension: Extension::PlusRegister,
        },
        Class::PlusSegment => FormName {
            opcode: c % 8,
            extension: Extension::PlusSegment,
        },
        Class::ModRm => FormName {
            opcode: c,
            extension: Extension::ModRm,
        },
        Class::Digit => FormName {
            opcode: c,
            extension: Extension::Digit(x / 8 % 8),
        },
        Class::Second0A => FormName {
            opcode: c,
            extension: Extension::Second0A,
        },
    }
}

// Do the forms of this class have a second byte?
pub fn has_second(class: Class) -> bool
    ensures { result ≡ has_second (extension_at class) }
{
    matches!(class, Class::ModRm | Class::Digit | Class::Second0A)
}

// Do two slots have the second byte x?
fn slots_fit(first: Restriction, second: Restriction, x: u8) -> bool
    ensures { result ≡ both (allows_second first x) (allows_second second x) }
{
    read_slots::allows_second(first, x) && read_slots::allows_second(second, x)
}

// The operation of first byte c and second byte x in a row of this class, where its slots have them.
pub fn found_at(
    class: Class,
    first: Restriction,
    second: Restriction,
    c: u8,
    x: u8,
) -> Option<Operation>
    ensures { result ≡ pick (both (allows_second first x) (allows_second second x)) (found_of class c x) None }
{
    if slots_fit(first, second, x) {
        return found_of(class, c, x);
    }
    None
}

// Is the first byte one of XCHG's?
pub fn is_exchange(c: u8) -> bool
    ensures { result ≡ exchanges c }
{
    c / 2 == 0x43 || c / 8 == 0x12
}

// Is it one of TEST's of a register?
pub fn tests_register(c: u8) -> bool
    ensures { result ≡ tests_register c }
{
    c / 2 == 0x42
}
