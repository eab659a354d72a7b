// Why a line is not carried out.
ghost use Rattle.std.specs.Prelude.{◌≡◌};
ghost use Rattle.script.specs.declared.no.No.TheVariants.{Refused, NoMemory, Io};

use refusals::fault::SelectionFault;
use std::alloc::{AllocError, AllocFailed};
use std::io;
use stored::trouble::Trouble;
use thiserror::Error;
use tokens::error::WordError;

// A misuse and a refusal are answered; want of memory and a failed write end the run.
#[derive(Debug, Drop, Error)]
pub(crate) enum No {
    #[error("misuse")]
    Misuse,
    #[error("refused {}", .0.refusal())]
    Refused(SelectionFault),
    #[error("no memory")]
    NoMemory,
    #[error(transparent)]
    Io(io::Error),
}

// These are written out, since contracts name what `?` makes, and a derived `From` has no contract.
impl From<SelectionFault> for No {
    ghost from_gives = { λ f no. no ≡ Refused f };

    fn from(fault: SelectionFault) -> No {
        No::Refused(fault)
    }
}

impl From<io::Error> for No {
    ghost from_gives = { λ e no. no ≡ Io e };

    fn from(error: io::Error) -> No {
        No::Io(error)
    }
}

impl From<AllocError> for No {
    ghost from_gives = { λ _ no. no ≡ NoMemory };

    fn from(_: AllocError) -> No {
        No::NoMemory
    }
}

impl<T: Drop> From<AllocFailed<T>> for No {
    ghost from_gives = { λ _ no. no ≡ NoMemory };

    fn from(_: AllocFailed<T>) -> No {
        No::NoMemory
    }
}

impl From<Trouble> for No {
    fn from(trouble: Trouble) -> No {
        match trouble {
            Trouble::Refused(fault) => No::Refused(fault),
            Trouble::NoMemory(_) => No::NoMemory,
        }
    }
}

impl From<WordError> for No {
    fn from(error: WordError) -> No {
        match error {
            WordError::Malformed => No::Misuse,
            WordError::NoMemory => No::NoMemory,
        }
    }
}
