// The limits of a value, what it leaves in a byte or a word, and the distances of branches: the casts and subtractions that 000 and 003 write in place.
#![tactic(auto)]

ghost use Rattle.std.specs.Prelude.{◌≡◌, ◌<◌, true, pos, negsuc, int_le, unsigned_abs};
ghost use Rattle.std.specs.Int.Signed.{mag};
ghost use Rattle.mrc_compiler.specs.Values.{within, mod_z};
ghost use Rattle.base_values.specs.Distances.{distance_of, wrapped, relative_of};

// Is a value in its limits?
pub fn value_is_within(value: i32, low: i32, high: i32) -> bool
    ensures { result ≡ within low high value }
{
    low <= value && value <= high
}

// `value as u8`: the value modulo 256.
pub fn low_byte(value: i32) -> u8
    ensures { result ≡ mod_z 256 value }
{
    (value.cast_unsigned() % 256) as u8
}

// `value as u16`: the value modulo 65,536.
pub fn low_word(value: i32) -> u16
    ensures { result ≡ mod_z 65536 value }
{
    (value.cast_unsigned() % 65536) as u16
}

// `value as u32`: the value modulo 2^32.
pub fn bits_of(value: i32) -> u32
    ensures { result ≡ mod_z 4294967296 value }
{
    value.cast_unsigned()
}

// The value without its sign.
pub fn magnitude(value: i32) -> u32
    ensures { result ≡ unsigned_abs value }
{
    value.unsigned_abs()
}

// The distance to a near target from the end of an instruction of three bytes, modulo 65,536.
pub fn near_distance(target: i32, offset: u16) -> u16
    ensures { result ≡ mod_z 65536 (distance_of target offset 3) }
{
    std::num::wrapping_sub_u16(low_word(target), std::num::wrapping_add_u16(offset, 3))
}

// The distance from the end of an instruction of `size` bytes to the target, in 64 bits so that no target overflows.
fn distance(target: i32, offset: u16, size: u8) -> i64
    ensures { result ≡ distance_of target offset size }
{
    let end = (offset as u32) + (size as u32);
    (target as i64) - (end as i64)
}

// Whether a distance fits a signed byte.
fn distance_is_signed_byte(d: i64) -> bool
    ensures { result ≡ within (negsuc 127) (pos 127) d }
{
    -128 <= d && d <= 127
}

// A distance modulo 2^32, as an i32. `distance` meets the limits: it is at most 65,790 below the least i32.
fn wrap_distance(d: i64) -> i32
    requires d_bound { mag d < 2147549440 }
    requires pos_value { int_le d (pos 2147483647) ≡ true }
    ensures { result ≡ wrapped d }
{
    if d < -2147483648 {
        (d + 4294967296) as i32
    } else {
        d as i32
    }
}

// What a short branch emits, the distance to its target as a signed byte; or the distance that is none, modulo 2^32 for the refusal.
pub fn relative_byte(target: i32, offset: u16, size: u8) -> Result<u8, i32>
    ensures { result ≡ relative_of (distance_of target offset size) }
{
    let d = distance(target, offset, size);
    if distance_is_signed_byte(d) {
        Ok(low_byte(d as i32))
    } else {
        Err(wrap_distance(d))
    }
}
