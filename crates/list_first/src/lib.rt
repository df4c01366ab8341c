// Is a string the first of its instruction's listing? For most strings their first bytes tell.
#![tactic(auto)]

ghost use Rattle.std.specs.Prelude.{◌≡◌};
ghost use Rattle.list_first.specs.First.{has_modrm, least_by_modrm, least_alone, least_displacement, first_alone, is_prefix, in_stack, own_prefix, is_first};

// Has the opcode a ModRM byte?
fn has_modrm(opcode: u8) -> bool
    ensures { result ≡ has_modrm opcode }
{
    if opcode < 0x40 {
        return opcode % 8 < 4;
    }
    if opcode < 0x80 {
        return false;
    }
    if opcode < 0x90 {
        return true;
    }
    if opcode < 0xC4 {
        return false;
    }
    if opcode < 0xC8 {
        return true;
    }
    if opcode < 0xF6 {
        return opcode / 4 == 0x34;
    }
    if opcode < 0xF8 {
        return true;
    }
    0xFE <= opcode
}

// No other start of the instruction is lower: opcodes with a ModRM byte.
fn is_least_by_modrm(opcode: u8, modrm: u8) -> bool
    ensures { result ≡ least_by_modrm opcode modrm }
{
    if opcode < 0x40 {
        if opcode % 8 < 2 {
            return true;
        }
        return modrm < 0xC0;
    }
    if opcode < 0x84 {
        if opcode == 0x81 {
            return false;
        }
        if modrm < 0xC0 {
            return true;
        }
        return modrm % 8 != 0;
    }
    if opcode < 0x86 {
        return true;
    }
    if opcode < 0x88 {
        return modrm < 0xC0;
    }
    if opcode < 0x8C {
        if modrm == 6 {
            return false;
        }
        if opcode < 0x8A {
            return true;
        }
        return modrm < 0xC0;
    }
    if opcode < 0x8F {
        return true;
    }
    if opcode < 0xC8 {
        return modrm < 0xC0;
    }
    if opcode < 0xD4 {
        return true;
    }
    if opcode < 0xF8 {
        return modrm != 0xC0;
    }
    if opcode == 0xFE {
        return true;
    }
    if modrm < 0xC0 {
        return true;
    }
    if modrm < 0xD0 {
        return false;
    }
    modrm < 0xF0
}

// The same for opcodes without one. A repeat is not told of.
fn is_least_alone(opcode: u8) -> bool
    ensures { result ≡ least_alone opcode }
{
    if opcode == 0xE9 {
        return false;
    }
    opcode / 2 != 0x79
}

// Has the displacement behind a ModRM byte as few bytes as it can?
fn is_least_displacement(modrm: u8, low: u8, high: u8) -> bool
    ensures { result ≡ least_displacement modrm low high }
{
    if modrm < 0x40 {
        return true;
    }
    if 0xC0 <= modrm {
        return true;
    }
    if modrm < 0x80 {
        return low != 0;
    }
    if high == 0 {
        return 128 <= low;
    }
    if high == 255 {
        return low < 128;
    }
    true
}

// By the first four bytes of a string without a prefix, where it has so many: is it told that it is the first?
fn is_first_alone(opcode: u8, modrm: u8, low: u8, high: u8) -> bool
    ensures { result ≡ first_alone opcode modrm low high }
{
    if has_modrm(opcode) {
        if is_least_by_modrm(opcode, modrm) {
            return is_least_displacement(modrm, low, high);
        }
        return false;
    }
    is_least_alone(opcode)
}

// Is a byte the prefix of a segment?
fn is_prefix(byte: u8) -> bool
    ensures { result ≡ is_prefix byte }
{
    if byte / 32 == 1 {
        return byte % 8 == 6;
    }
    false
}

// Is the memory of a ModRM byte in the stack's segment, by its base?
fn is_in_stack(modrm: u8) -> bool
    ensures { result ≡ in_stack modrm }
{
    if modrm % 8 == 6 {
        return 0x40 <= modrm;
    }
    modrm % 8 / 2 == 1
}

// The prefix of the segment that memory is in without one.
fn own_prefix(opcode: u8, modrm: u8) -> u8
    ensures { result ≡ own_prefix opcode modrm }
{
    if has_modrm(opcode) {
        if is_in_stack(modrm) {
            return 0x36;
        }
        return 0x3E;
    }
    0x3E
}

// By a string's first five bytes.
pub fn is_first(b0: u8, b1: u8, b2: u8, b3: u8, b4: u8) -> bool
    ensures { result ≡ is_first b0 b1 b2 b3 b4 }
{
    if is_prefix(b0) {
        if b0 == own_prefix(b1, b2) {
            return false;
        }
        return is_first_alone(b1, b2, b3, b4);
    }
    is_first_alone(b0, b1, b2, b3)
}
