// A faster way to the words of a reading (specs/Words): off the bytes, by one number for each first byte. Where it has none the reader is asked, which gives every refusal.
#![tactic(auto)]

ghost use Rattle.std.specs.Prelude.{◌≡◌, true, ℕ, ◌<◌, eqb, length, get_or};
ghost use Rattle.mrc_compiler.specs.Choose.{pick};
ghost use Rattle.x86.specs.Reading.{prefix as prefixed};
ghost use Rattle.fast_reader.specs.Plans.{plans, group_in, string_in, digit_operations, places, value_by};
ghost use Rattle.fast_reader.specs.Words.{Placed, repeated_words, Reads};

// An instruction as it crosses: a and b are the first operand's, c and d the second's. A head of 0 is none's, since its low byte is the length.
#[derive(Clone, Copy)]
pub struct Words {
    pub head: u32,
    pub extension: u32,
    pub a: u32,
    pub b: u32,
    pub c: u32,
    pub d: u32,
}

fn no_words() -> Words
    ensures { result.head ≡ 0 }
{
    Words {
        head: 0,
        extension: 0,
        a: 0,
        b: 0,
        c: 0,
        d: 0,
    }
}

// The plan of a first byte, 0 where the reader is asked.
fn plan_of(c: u8) -> u64
    ensures { 0 < result → result ≡ get_or plans c 0 }
{
    match c {
        0x00 => 0x800000c00000010e,
        0x01 => 0x800000c00001020e,
        0x02 => 0x880000c00002010e,
        0x03 => 0x880000c00003020e,
        0x04 => 0x492004000104010e,
        0x05 => 0x4a4004000105020e,
        0x06 => 0x4000008002060201,
        0x07 => 0x4000008002070202,
        0x08 => 0x800000c00008012c,
        0x09 => 0x800000c00009022c,
        0x0A => 0x880000c0000a012c,
        0x0B => 0x880000c0000b022c,
        0x0C => 0x49200400010c012c,
        0x0D => 0x4a400400010d022c,
        0x0E => 0x4000008102060201,
        0x10 => 0x800000c00010010f,
        0x11 => 0x800000c00011020f,
        0x12 => 0x880000c00012010f,
        0x13 => 0x880000c00013020f,
        0x14 => 0x492004000114010f,
        0x15 => 0x4a4004000115020f,
        0x16 => 0x4000008202060201,
        0x17 => 0x4000008202070202,
        0x18 => 0x800000c000180114,
        0x19 => 0x800000c000190214,
        0x1A => 0x880000c0001a0114,
        0x1B => 0x880000c0001b0214,
        0x1C => 0x49200400011c0114,
        0x1D => 0x4a400400011d0214,
        0x1E => 0x4000008302060201,
        0x1F => 0x4000008302070202,
        0x20 => 0x800000c00020012a,
        0x21 => 0x800000c00021022a,
        0x22 => 0x880000c00022012a,
        0x23 => 0x880000c00023022a,
        0x24 => 0x492004000124012a,
        0x25 => 0x4a4004000125022a,
        0x27 => 0x4000000000270012,
        0x28 => 0x800000c000280113,
        0x29 => 0x800000c000290213,
        0x2A => 0x880000c0002a0113,
        0x2B => 0x880000c0002b0213,
        0x2C => 0x49200400012c0113,
        0x2D => 0x4a400400012d0213,
        0x2F => 0x40000000002f0019,
        0x30 => 0x800000c00030012d,
        0x31 => 0x800000c00031022d,
        0x32 => 0x880000c00032012d,
        0x33 => 0x880000c00033022d,
        0x34 => 0x492004000134012d,
        0x35 => 0x4a4004000135022d,
        0x37 => 0x4000000000370011,
        0x38 => 0x800000c000380117,
        0x39 => 0x800000c000390217,
        0x3A => 0x880000c0003a0117,
        0x3B => 0x880000c0003b0217,
        0x3C => 0x49200400013c0117,
        0x3D => 0x4a400400013d0217,
        0x3F => 0x40000000003f0018,
        0x40 => 0x4000004001400210,
        0x41 => 0x4000004101400210,
        0x42 => 0x4000004201400210,
        0x43 => 0x4000004301400210,
        0x44 => 0x4000004401400210,
        0x45 => 0x4000004501400210,
        0x46 => 0x4000004601400210,
        0x47 => 0x4000004701400210,
        0x48 => 0x4000004001480215,
        0x49 => 0x4000004101480215,
        0x4A => 0x4000004201480215,
        0x4B => 0x4000004301480215,
        0x4C => 0x4000004401480215,
        0x4D => 0x4000004501480215,
        0x4E => 0x4000004601480215,
        0x4F => 0x4000004701480215,
        0x50 => 0x4000004001500201,
        0x51 => 0x4000004101500201,
        0x52 => 0x4000004201500201,
        0x53 => 0x4000004301500201,
        0x54 => 0x4000004401500201,
        0x55 => 0x4000004501500201,
        0x56 => 0x4000004601500201,
        0x57 => 0x4000004701500201,
        0x58 => 0x4000004001580202,
        0x59 => 0x4000004101580202,
        0x5A => 0x4000004201580202,
        0x5B => 0x4000004301580202,
        0x5C => 0x4000004401580202,
        0x5D => 0x4000004501580202,
        0x5E => 0x4000004601580202,
        0x5F => 0x4000004701580202,
        0x70 => 0x4420000005700043,
        0x71 => 0x442000000571004b,
        0x72 => 0x4420000005720040,
        0x73 => 0x4420000005730048,
        0x74 => 0x442000000574003d,
        0x75 => 0x4420000005750045,
        0x76 => 0x4420000005760041,
        0x77 => 0x4420000005770049,
        0x78 => 0x4420000005780044,
        0x79 => 0x442000000579004c,
        0x7A => 0x44200000057a0042,
        0x7B => 0x44200000057b004a,
        0x7C => 0x44200000057c003e,
        0x7D => 0x44200000057d0046,
        0x7E => 0x44200000057e003f,
        0x7F => 0x44200000057f0047,
        0x80 => 0xc120040000800100,
        0x81 => 0xc240040000810200,
        0x83 => 0xc320040000830200,
        0x88 => 0x800000c000880100,
        0x89 => 0x800000c000890200,
        0x8A => 0x880000c0008a0100,
        0x8B => 0x880000c0008b0200,
        0x8D => 0x890000c0008d0207,
        0x8F => 0xc0000000088f0200,
        0x98 => 0x4000000000980020,
        0x99 => 0x4000000000990021,
        0x9B => 0x40000000009b005e,
        0x9C => 0x40000000009c000c,
        0x9D => 0x40000000009d000d,
        0x9E => 0x40000000009e000b,
        0x9F => 0x40000000009f000a,
        0xA4 => 0x4000000000a40030,
        0xA5 => 0x4000000000a50031,
        0xA6 => 0x4000000000a60032,
        0xA7 => 0x4000000000a70033,
        0xA8 => 0x4920040001a8012b,
        0xA9 => 0x4a40040001a9022b,
        0xAA => 0x4000000000aa0038,
        0xAB => 0x4000000000ab0039,
        0xAC => 0x4000000000ac0036,
        0xAD => 0x4000000000ad0037,
        0xAE => 0x4000000000ae0034,
        0xAF => 0x4000000000af0035,
        0xB0 => 0x4920044001b00100,
        0xB1 => 0x4920044101b00100,
        0xB2 => 0x4920044201b00100,
        0xB3 => 0x4920044301b00100,
        0xB4 => 0x4920044401b00100,
        0xB5 => 0x4920044501b00100,
        0xB6 => 0x4920044601b00100,
        0xB7 => 0x4920044701b00100,
        0xB8 => 0x4a40044001b80200,
        0xB9 => 0x4a40044101b80200,
        0xBA => 0x4a40044201b80200,
        0xBB => 0x4a40044301b80200,
        0xBC => 0x4a40044401b80200,
        0xBD => 0x4a40044501b80200,
        0xBE => 0x4a40044601b80200,
        0xBF => 0x4a40044701b80200,
        0xC2 => 0x4240000004c2003c,
        0xC3 => 0x4000000000c3003c,
        0xC4 => 0x890000c000c40209,
        0xC5 => 0x890000c000c50208,
        0xC6 => 0xc120040010c60100,
        0xC7 => 0xc240040010c70200,
        0xCC => 0x4000000000cc0053,
        0xCD => 0x4120000004cd0051,
        0xCE => 0x4000000000ce0054,
        0xCF => 0x4000000000cf0055,
        0xD0 => 0xc000070018d00100,
        0xD1 => 0xc000070018d10200,
        0xD2 => 0xc001010018d20100,
        0xD3 => 0xc001010018d30200,
        0xD6 => 0x4000000000d60062,
        0xE0 => 0x4420000005e0004f,
        0xE1 => 0x4420000005e1004e,
        0xE2 => 0x4420000005e2004d,
        0xE3 => 0x4420000005e30050,
        0xE4 => 0x4920040001e40104,
        0xE5 => 0x4920040001e50204,
        0xE6 => 0x4120010004e60105,
        0xE7 => 0x4120010004e70205,
        0xE8 => 0x4540000005e8003a,
        0xE9 => 0x4540000005e9003b,
        0xEA => 0x4680000006ea003b,
        0xEB => 0x4420000005eb003b,
        0xEC => 0x4002010001ec0104,
        0xED => 0x4002010001ed0204,
        0xEE => 0x4000010201ee0105,
        0xEF => 0x4000010201ef0205,
        0xF0 => 0x4000000000f00060,
        0xF4 => 0x4000000000f4005d,
        0xF5 => 0x4000000000f50057,
        0xF6 => 0xc000000020f60100,
        0xF7 => 0xc000000020f70200,
        0xF8 => 0x4000000000f80056,
        0xF9 => 0x4000000000f90058,
        0xFA => 0x4000000000fa005b,
        0xFB => 0x4000000000fb005c,
        0xFC => 0x4000000000fc0059,
        0xFD => 0x4000000000fd005a,
        0xFE => 0xc000000028fe0100,
        0xFF => 0xc000000030ff0200,
        _ => 0,
    }
}

// The operation of a line of digits, 99 where the reader is asked.
fn operation_of(line: u8) -> u8
    ensures { result < 99 → result ≡ get_or digit_operations line 99 }
{
    match line {
        0 => 14,
        1 => 44,
        2 => 15,
        3 => 20,
        4 => 42,
        5 => 19,
        6 => 45,
        7 => 23,
        8 => 2,
        16 => 0,
        24 => 38,
        25 => 39,
        26 => 40,
        27 => 41,
        28 => 35,
        29 => 36,
        31 => 37,
        34 => 34,
        35 => 22,
        36 => 26,
        37 => 27,
        38 => 29,
        39 => 30,
        40 => 16,
        41 => 21,
        48 => 16,
        49 => 21,
        50 => 58,
        52 => 59,
        54 => 1,
        _ => 99,
    }
}

// The operand that 8 times the mode and r/m name, below 32.
fn place_of(at: u8) -> u32
    ensures { 0 < result → result ≡ get_or places at 0 }
{
    match at {
        0 => 0x30003,
        1 => 0x30103,
        2 => 0x20203,
        3 => 0x20303,
        4 => 0x30403,
        5 => 0x30503,
        6 => 0x2030803,
        7 => 0x30703,
        8 => 0x1030003,
        9 => 0x1030103,
        10 => 0x1020203,
        11 => 0x1020303,
        12 => 0x1030403,
        13 => 0x1030503,
        14 => 0x1020603,
        15 => 0x1030703,
        16 => 0x2030003,
        17 => 0x2030103,
        18 => 0x2020203,
        19 => 0x2020303,
        20 => 0x2030403,
        21 => 0x2030503,
        22 => 0x2020603,
        23 => 0x2030703,
        24 => 0x1,
        25 => 0x101,
        26 => 0x201,
        27 => 0x301,
        28 => 0x401,
        29 => 0x501,
        30 => 0x601,
        31 => 0x701,
        _ => 0,
    }
}

// The value of an immediate.
fn value_by(mode: u64, next: u32, u: &[u8]) -> u32
    requires { next < 131072 }
    ensures { result ≡ value_by mode next u.now }
{
    if mode == 0 {
        return 0;
    }
    let b = read_slots::byte_at(u, 0);
    if mode == 1 {
        return b as u32;
    }
    let w = read_slots::word_at(u, 0);
    if mode == 2 {
        return w as u32;
    }
    let x = read_slots::sign_extended(b);
    if mode == 3 {
        return x as u32;
    }
    if mode == 4 {
        return (next + x as u32) % 65536;
    }
    if mode == 5 {
        return (next + w as u32) % 65536;
    }
    w as u32 + 65536 * read_slots::word_at(u, 2) as u32
}

// A first byte that no ModRM follows.
fn bare(plan: u64, bytes: &[u8], offset: u16) -> Words
    requires { (0 < length bytes.now) × (plan ≡ get_or plans (get_or bytes.now 0 0) 0) × (group_in plan ≡ 1) }
    ensures { 0 < result.head → Reads offset bytes.now result }
{
    let tail = (plan / 0x20000000000000 % 8) as usize;
    if bytes.len() <= tail {
        return no_words();
    }
    let n = 1 + tail;
    let mode = plan / 0x100000000000000 % 8;
    let value = value_by(mode, offset as u32 + n as u32, &bytes[1..]);
    let order = plan / 0x800000000000000 % 2;
    let head = n as u32 + 256 * (plan % 0x1000000) as u32;
    let extension = (plan / 0x4000000000 % 4) as u32;
    let a = (plan / 0x1000000 % 16384) as u32;
    let c = (plan / 0x10000000000 % 8192) as u32;
    if order == 0 {
        return Words {
            head,
            extension,
            a,
            b: value,
            c,
            d: 0,
        };
    }
    Words {
        head,
        extension,
        a,
        b: 0,
        c,
        d: value,
    }
}

// The operand in the r/m field behind a prefix (0: none): its head, and above it the bytes of its displacement. 0 where the reader is asked, as of a prefix before a register.
fn place_at(prefix: u8, x: u8) -> u32
    requires { pick (eqb prefix 0) true (prefixed prefix) ≡ true }
    ensures { 0 < result → Placed prefix x result }
{
    let place = place_of(x / 64 * 8 + x % 8);
    if prefix == 0 {
        return place;
    }
    if x / 64 == 3 {
        return 0;
    }
    if place == 0 {
        return 0;
    }
    if prefix < 0x26 {
        return 0;
    }
    place / 0x1000000 * 0x1000000 + 65536 * ((prefix as u32 - 0x26) / 8) + place % 65536
}

// A first byte with ModRM, at start.
fn by_modrm(plan: u64, prefix: u8, start: usize, bytes: &[u8]) -> Words
    requires { (start < length bytes.now) × (start ≡ pick (prefixed (get_or bytes.now 0 0)) 1 0) × (prefix ≡ pick (prefixed (get_or bytes.now 0 0)) (get_or bytes.now 0 0) 0) × (plan ≡ get_or plans (get_or bytes.now start 0) 0) × (1 < group_in plan) }
    ensures { (off : ℕ) → 0 < result.head → Reads off bytes.now result }
{
    let i = start + 2;
    if bytes.len() < i {
        return no_words();
    }
    let x = bytes[start + 1];
    let place = place_at(prefix, x);
    if place == 0 {
        return no_words();
    }
    let d = place / 0x1000000;
    let tail = (plan / 0x20000000000000 % 8) as usize;
    let n = i + d as usize + tail;
    if bytes.len() < n {
        return no_words();
    }
    let displacement = read_slots::displacement_at(d as u8, &bytes[i..]) as u32;
    let operand = place % 0x1000000;
    let digit = x / 8 % 8;
    let mode = plan / 0x100000000000000 % 8;
    if plan / 0x4000000000000000 == 2 {
        if mode + (x / 64) as u64 == 4 {
            return no_words();
        }
        let head = n as u32 + 256 * (plan % 0x1000000) as u32;
        let register = 1 + 256 * digit as u32;
        if plan / 0x800000000000000 % 2 == 0 {
            return Words {
                head,
                extension: 3,
                a: operand,
                b: displacement,
                c: register,
                d: 0,
            };
        }
        return Words {
            head,
            extension: 3,
            a: register,
            b: 0,
            c: operand,
            d: displacement,
        };
    }
    let operation = operation_of((plan / 0x1000000 % 64) as u8 + digit);
    if operation < 99 {
        let value = value_by(mode, 0, &bytes[i + d as usize..]);
        return Words {
            head: n as u32 + 256 * (operation as u32 + 256 * (plan / 256 % 65536) as u32),
            extension: 8 + digit as u32,
            a: operand,
            b: displacement,
            c: (plan / 0x10000000000 % 8192) as u32,
            d: value,
        };
    }
    no_words()
}

// A string operation behind its repeat.
fn repeated(plan: u64, repeat: u8) -> Words
    ensures { result ≡ repeated_words plan repeat }
{
    Words {
        head: 2 + 256 * (plan % 0x1000000) as u32,
        extension: 256 * repeat as u32,
        a: 0,
        b: 0,
        c: 0,
        d: 0,
    }
}

// Is it a string operation's plan? They have the numbers 48 to 57.
fn is_string(plan: u64) -> bool
    ensures { result ≡ string_in plan }
{
    let number = plan % 256;
    if plan / 0x4000000000000000 == 1 {
        if number < 48 {
            return false;
        }
        return number < 58;
    }
    false
}

// What begins with F2 or F3: an instruction of its own, which the reader reads, or a string operation behind its repeat.
fn behind_repeat(bytes: &[u8]) -> Words
    ensures { (off : ℕ) → 0 < result.head → Reads off bytes.now result }
{
    if bytes.len() < 2 {
        return no_words();
    }
    let b = bytes[0];
    if x86::is_repeat(b) {
        let plan = plan_of(bytes[1]);
        if is_string(plan) {
            return repeated(plan, b);
        }
        return no_words();
    }
    no_words()
}

// The words of the bytes, or a head of 0 where the reader is asked.
pub fn words_at(bytes: &[u8], offset: u16) -> Words
    ensures { 0 < result.head → Reads offset bytes.now result }
{
    if 0 < bytes.len() {
        let b = bytes[0];
        let start = reader::opcode_start(b);
        if start < bytes.len() {
            let plan = plan_of(bytes[start]);
            let group = plan / 0x4000000000000000;
            if 1 < group {
                return by_modrm(plan, reader::prefix_of(b), start, bytes);
            }
            if group == 1 {
                if start == 0 {
                    return bare(plan, bytes, offset);
                }
                return no_words();
            }
            return behind_repeat(bytes);
        }
        return no_words();
    }
    no_words()
}
