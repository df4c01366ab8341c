// The ranges of a record's numbers without a sign.
#![tactic(auto)]

ghost use Rattle.std.specs.Prelude.{◌≡◌, ◌-◌, ◌<◌, ◌≤◌, pos};
ghost use Rattle.mrc_compiler.specs.Values.{within};
ghost use Rattle.base_values.specs.Distances.{as_i_32};
ghost use Rattle.fast_value.specs.Signs.{minus};

pub fn wide(byte: u8) -> u64
    ensures value { result ≡ byte }
    ensures small { result < 256 }
{
    byte as u64
}

// Is the i32 with these bits one of the `count` numbers from -below on? One comparison, as the sum wraps.
pub fn in_range(n: u32, below: u32, count: u32) -> bool
    requires { (below < count) × (count ≤ 2147483648) }
    ensures { result ≡ within (minus below) (pos (count - 1 - below)) (as_i_32 n) }
{
    std::num::wrapping_add_u32(n, below) < count
}
