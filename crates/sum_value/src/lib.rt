// The arithmetic of sums (REFERENCE 12): each step gives an i32, or none where it leaves the i32s or divides by zero.
#![tactic(auto)]

ghost use Rattle.std.specs.Prelude.{◌≡◌};
ghost use Rattle.sum_spec.specs.Sums.{kept, negated, sum_of, difference_of, product_of, quotient_of};
ghost use Rattle.sum_value.specs.Worth.{negations};

// A value where it is an i32.
pub fn keep(z: i64) -> Option<i32>
    ensures { result ≡ kept z }
{
    i32::try_from(z).ok()
}

pub fn negate(v: Option<i32>) -> Option<i32>
    ensures { result ≡ negated v }
{
    v?.checked_neg()
}

pub fn add(v: Option<i32>, w: Option<i32>) -> Option<i32>
    ensures { result ≡ sum_of v w }
{
    v?.checked_add(w?)
}

pub fn subtract(v: Option<i32>, w: Option<i32>) -> Option<i32>
    ensures { result ≡ difference_of v w }
{
    v?.checked_sub(w?)
}

pub fn multiply(v: Option<i32>, w: Option<i32>) -> Option<i32>
    ensures { result ≡ product_of v w }
{
    v?.checked_mul(w?)
}

pub fn divide(v: Option<i32>, w: Option<i32>) -> Option<i32>
    ensures { result ≡ quotient_of v w }
{
    v?.checked_div(w?)
}

// The value behind a row of minus signs.
pub fn negate_times(v: Option<i32>, times: usize) -> Option<i32>
    ensures { result ≡ negations times v }
{
    let mut value = v;
    for _ in 0..times {
        value = negate(value);
    }
    value
}
