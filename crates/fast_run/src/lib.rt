// A run as one number (specs/Packed): bytes are put before those that are there, and the count above them.
#![tactic(auto)]

ghost use Rattle.std.specs.Prelude.{◌≡◌, true, [], ◌∷◌, ◌++◌, ◌<◌, ◌≤◌, ◌/◌, length, drop};
ghost use Rattle.encode_spec.specs.Layout.{prefix_bytes};
ghost use Rattle.fast_run.specs.Packed.{over, digits, displaced, length_unit, unpacked, Valued};

const LENGTH: u64 = 0x100000000000000;

// The displacement, in its size.
fn over_displacement(size: u8, low: u8, high: u8, tail: u64) -> u64
    requires { tail < 65536 }
    ensures value { result ≡ over (displaced size low high) tail }
    ensures small { result < 4294967296 }
{
    if size == 0 {
        return tail;
    }
    if size == 1 {
        return tail * 256 + low as u64;
    }
    tail * 65536 + high as u64 * 256 + low as u64
}

// Opcode and ModRM.
fn over_opcode(op_code: u8, mod_rm: u8, bits: u64) -> u64
    requires { bits < 4294967296 }
    ensures value { result ≡ over (op_code ∷ mod_rm ∷ []) bits }
    ensures small { result < 281474976710656 }
{
    (bits * 256 + mod_rm as u64) * 256 + op_code as u64
}

// The prefix, where there is one.
fn over_prefix(prefix: u8, bits: u64) -> u64
    requires { bits < 281474976710656 }
    ensures value { result ≡ over (prefix_bytes prefix) bits }
    ensures small { result < length_unit }
{
    if prefix == 0 {
        return bits;
    }
    bits * 256 + prefix as u64
}

// How many bytes a prefix has.
fn prefix_length(prefix: u8) -> u64
    ensures value { result ≡ length (prefix_bytes prefix) }
    ensures small { result ≤ 1 }
{
    if prefix == 0 {
        return 0;
    }
    1
}

// An opcode and a value of n bytes.
pub fn bare_run(op_code: u8, n: u8, value: u64) -> u64
    requires { Valued n value }
    ensures { unpacked result ≡ op_code ∷ digits n value }
{
    value * 256 + op_code as u64 + (1 + n as u64) * LENGTH
}

// Prefix, opcode, and a value of n bytes.
pub fn memory_run(prefix: u8, op_code: u8, n: u8, value: u64) -> u64
    requires { Valued n value }
    ensures { unpacked result ≡ prefix_bytes prefix ++ (op_code ∷ digits n value) }
{
    over_prefix(prefix, value * 256 + op_code as u64)
        + (1 + n as u64 + prefix_length(prefix)) * LENGTH
}

// Prefix, opcode, ModRM, displacement, and a value of n bytes.
pub fn rm_run(
    prefix: u8,
    op_code: u8,
    mod_rm: u8,
    size: u8,
    low: u8,
    high: u8,
    n: u8,
    value: u64,
) -> u64
    requires { (size ≤ 2) × Valued n value }
    ensures { unpacked result ≡ prefix_bytes prefix ++ (op_code ∷ mod_rm ∷ (displaced size low high ++ digits n value)) }
{
    let memory = over_displacement(size, low, high, value);
    let coded = over_opcode(op_code, mod_rm, memory);
    over_prefix(prefix, coded) + (2 + n as u64 + size as u64 + prefix_length(prefix)) * LENGTH
}

// An opcode and four bytes.
pub fn far_run(op_code: u8, a: u8, b: u8, c: u8, d: u8) -> u64
    ensures { unpacked result ≡ op_code ∷ a ∷ b ∷ c ∷ d ∷ [] }
{
    op_code as u64
        + 256 * (a as u64 + 256 * (b as u64 + 256 * (c as u64 + 256 * d as u64)))
        + 5 * LENGTH
}

// Is there a run, and has a slice room for it?
pub fn fits(packed: u64, room: usize) -> bool
    ensures { result ≡ true → (0 < packed) × (packed / length_unit ≤ room) }
{
    if packed == 0 {
        return false;
    }
    packed / LENGTH <= room as u64
}

// How many bytes a run has.
pub fn length_of(packed: u64) -> usize
    ensures { result ≡ length (unpacked packed) }
{
    (packed / LENGTH) as usize
}

// Writes a run to the front of out.
pub fn write_packed(packed: u64, out: &mut [u8])
    requires { packed / length_unit ≤ length out.old }
    ensures { out.new ≡ unpacked packed ++ drop (length (unpacked packed)) out.old }
{
    let n = length_of(packed);
    let mut bits = packed;
    let mut i = 0;
    while i < n {
        out[i] = (bits % 256) as u8;
        bits = bits / 256;
        i += 1;
    }
}
