// Why words give no value.
ghost use Rattle.std.specs.Prelude.{◌≡◌};
ghost use Rattle.tokens.specs.declared.error.WordError.TheVariants.{NoMemory};

use std::alloc::{AllocError, AllocFailed};
use std::error::Error;
use std::fmt;

#[derive(Clone, Copy, PartialEq, Eq, Debug)]
pub enum WordError {
    // The words are not of the form that is read.
    Malformed,
    NoMemory,
}

impl fmt::Display for WordError {
    fn fmt<W: fmt::Write>(&self, f: &mut fmt::Formatter<W>) -> fmt::Result {
        match self {
            WordError::Malformed => write!(f, "not of the form"),
            WordError::NoMemory => write!(f, "out of memory"),
        }
    }
}

impl Error for WordError {}

// The conversions are written out for `from_gives`, by which a contract knows what a `?` returns.
impl From<AllocError> for WordError {
    ghost from_gives = { λ _ e. e ≡ NoMemory };

    fn from(_e: AllocError) -> WordError {
        WordError::NoMemory
    }
}

impl<T: Drop> From<AllocFailed<T>> for WordError {
    ghost from_gives = { λ _ e. e ≡ NoMemory };

    fn from(_e: AllocFailed<T>) -> WordError {
        WordError::NoMemory
    }
}
