// The evaluator of sums (REFERENCE 12): sum, product and factor call each other, and the remaining text falls. `room` is how many brackets
// may still be opened: no text makes the calls nest deeper. A row of minus signs, the digits of a number, the terms of a sum and the
// factors of a product are loops. Each part is read from the front of a text, and answers its value and the text behind it.
#![tactic(auto)]

ghost use Rattle.std.specs.Prelude.{◌≡◌, true, ◌+◌, ◌*◌, ◌≤◌, ◌<◌, min};
ghost use Rattle.sum_spec.specs.Reading.{answer_of};
ghost use Rattle.sum_evaluate.specs.Parts.{most_number, numeral_value, NumeralTo, SignsTo, FactorTo, ProductTo, SumTo, ends_digits, ends_signs, ends_product, ends_sum};

use sum_spec::SumError;

// No number in reach is larger; larger ones are taken for it.
const MOST_NUMBER: u64 = 2147483649;

// A text that is deeper has no value.
const MOST_DEPTH: usize = 16;

// One digit more.
fn push_digit(number: u64, digit: u8) -> u64
    requires number_le_most_number { number ≤ most_number }
    requires digit_bound { digit < 10 }
    ensures { result ≡ min (number * 10 + digit) most_number }
{
    (number * 10 + u64::from(digit)).min(MOST_NUMBER)
}

// The number of the digits at the front.
fn numeral(text: &[u8]) -> (u64, &[u8])
    ensures numeral_to { NumeralTo text.now result.0 result.1.now }
    ensures ends { ends_digits result.1.now ≡ true }
{
    let mut number = 0;
    let mut rest = text;
    while let [digit @ b'0'..=b'9', after @ ..] = rest {
        number = push_digit(number, *digit - b'0');
        rest = after;
    }
    (number, rest)
}

// How many minus signs stand at the front.
fn minus_signs(text: &[u8]) -> (usize, &[u8])
    ensures signs_to { SignsTo text.now result.0 result.1.now }
    ensures ends { ends_signs result.1.now ≡ true }
{
    let mut count = 0;
    let mut rest = text;
    while let [b'-', after @ ..] = rest {
        count += 1;
        rest = after;
    }
    (count, rest)
}

// The value of a number behind minus signs: the last of them is taken with it.
fn signed(number: u64, signs: usize) -> Option<i32>
    requires { number ≤ most_number }
    ensures { result ≡ numeral_value signs number }
{
    match signs.checked_sub(1) {
        None => sum_value::keep(number as i64),
        Some(others) => sum_value::negate_times(sum_value::keep(-(number as i64)), others),
    }
}

#[cycle(factor_product_sum)]
fn factor(text: &[u8], room: usize) -> (Option<i32>, &[u8])
    ensures { FactorTo text.now room result.0 result.1.now }
{
    let (signs, rest) = minus_signs(text);
    match rest {
        [] => (None, rest),
        [b'(', inside @ ..] => {
            if room == 0 {
                return (None, rest);
            }
            let (inner, behind) = sum(inside, room - 1);
            let value = sum_value::negate_times(inner, signs);
            match behind {
                [] => (value, behind),
                [_, after @ ..] => (value, after),
            }
        }
        _ => {
            let (number, after) = numeral(rest);
            (signed(number, signs), after)
        }
    }
}

#[cycle(factor_product_sum)]
fn product(text: &[u8], room: usize) -> (Option<i32>, &[u8])
    ensures product_to { ProductTo text.now room result.0 result.1.now }
    ensures ends { ends_product result.1.now ≡ true }
{
    let (mut value, mut rest) = factor(text, room);
    loop {
        match rest {
            [b'*', after @ ..] => {
                let (next, behind) = factor(after, room);
                value = sum_value::multiply(value, next);
                rest = behind;
            }
            [b'/', after @ ..] => {
                let (next, behind) = factor(after, room);
                value = sum_value::divide(value, next);
                rest = behind;
            }
            _ => return (value, rest),
        }
    }
}

#[cycle(factor_product_sum)]
fn sum(text: &[u8], room: usize) -> (Option<i32>, &[u8])
    ensures sum_to { SumTo text.now room result.0 result.1.now }
    ensures ends { ends_sum result.1.now ≡ true }
{
    let (mut value, mut rest) = product(text, room);
    loop {
        match rest {
            [b'+', after @ ..] => {
                let (next, behind) = product(after, room);
                value = sum_value::add(value, next);
                rest = behind;
            }
            [b'-', after @ ..] => {
                let (next, behind) = product(after, room);
                value = sum_value::subtract(value, next);
                rest = behind;
            }
            _ => return (value, rest),
        }
    }
}

/// The value of a text, or why it has none: it is asked in the order of `SumError`'s numbers.
pub fn evaluate(text: &[u8]) -> Result<i32, SumError>
    ensures { result ≡ answer_of text.now }
{
    let Some(depth) = sum_shape::shape_of(text) else {
        return Err(SumError::NoText);
    };
    if depth > MOST_DEPTH {
        return Err(SumError::TooDeep);
    }
    let (value, _) = sum(text, MOST_DEPTH);
    value.ok_or(SumError::OutOfRange)
}
