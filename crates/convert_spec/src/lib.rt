// What converting a show from a 186 module answers (REFERENCE 16).
#![tactic(auto)]

ghost use Rattle.std.specs.Prelude.{◌≡◌};
ghost use Rattle.convert_spec.specs.declared.ConvertError.TheVariants as X;
ghost use Rattle.convert_spec.specs.Refusals.{number_of};

use show_file::LoadError;

// How a record's form holds its near target.
#[derive(Clone, Copy, Debug, PartialEq, Eq)]
pub enum Branch {
    // A distance byte: Jcc, E0 to E3, EB.
    Short,

    // A distance word: E8, E9.
    Near,
}

#[derive(Clone, Copy, Debug, PartialEq, Eq)]
pub enum ConvertError {
    // The loader's, of the file or of the written one, and the encoder's, of a record at its old start.
    Load(LoadError),

    // 24, with the first such record.
    ShiftCountOutOfRange(usize),

    // 25, with the first such record.
    NoRecordAtTarget(usize),

    // 9.
    SliceTooShort,
}

impl ConvertError {
    // Document 01's and 02's number.
    pub fn number(self) -> u8
        ensures { result ≡ number_of self }
    {
        match self {
            ConvertError::Load(e) => e.number(),
            ConvertError::ShiftCountOutOfRange(_) => 24,
            ConvertError::NoRecordAtTarget(_) => 25,
            ConvertError::SliceTooShort => 9,
        }
    }
}

impl From<LoadError> for ConvertError {
    ghost from_gives = { λ error result. result ≡ X.Load error };

    fn from(error: LoadError) -> ConvertError {
        ConvertError::Load(error)
    }
}
