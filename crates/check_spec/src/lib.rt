// What checking the targets of a show answers (REFERENCE 17).
#![tactic(auto)]

ghost use Rattle.std.specs.Prelude.{◌≡◌};
ghost use Rattle.check_spec.specs.declared.CheckError.TheVariants as C;

use show_file::LoadError;

// Why a show is refused.
#[derive(Clone, Copy, Debug, PartialEq, Eq)]
pub enum CheckError {
    // The loader's.
    Load(LoadError),

    // 25: the first record whose near target is neither a record's start nor the end, the target, and the record that it falls into.
    Inside(usize, u16, usize),

    // 25, where no record has a byte there.
    Outside(usize, u16),
}

impl From<LoadError> for CheckError {
    ghost from_gives = { λ error result. result ≡ C.Load error };

    fn from(error: LoadError) -> CheckError {
        CheckError::Load(error)
    }
}
