// Why a text has no value (REFERENCE 12).
#![tactic(auto)]

ghost use Rattle.std.specs.Prelude.{◌≡◌};
ghost use Rattle.sum_spec.specs.Sums.{number_of};

/// Why a text has no value.
#[derive(Clone, Copy, Debug, PartialEq, Eq)]
pub enum SumError {
    /// It is no sum.
    NoText,

    /// It is more than 16 brackets deep.
    TooDeep,

    /// A value on the way is no `i32`, or a divisor is 0.
    OutOfRange,
}

impl SumError {
    /// Document 02's number.
    pub fn number(self) -> u8
        ensures { result ≡ number_of self }
    {
        match self {
            SumError::NoText => 16,
            SumError::TooDeep => 17,
            SumError::OutOfRange => 18,
        }
    }
}
