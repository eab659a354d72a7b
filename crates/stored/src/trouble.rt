// Why there is no result.
ghost use Rattle.std.specs.Prelude.{◌≡◌, alloc_error};
ghost use Rattle.stored.specs.declared.trouble.Trouble.TheVariants.{Refused, NoMemory};

use refusals::fault::SelectionFault;
use std::alloc::{AllocError, AllocFailed};
use thiserror::Error;

#[derive(Clone, Copy, PartialEq, Eq, Debug, Error)]
pub enum Trouble {
    #[error("refused {}", .0.refusal())]
    Refused(SelectionFault),
    #[error("no memory")]
    NoMemory(AllocError),
}

// These are written out, since contracts name the refusal that `?` passes on, and a derived `From` has no contract.
impl From<SelectionFault> for Trouble {
    ghost from_gives = { λ f t. t ≡ Refused f };

    fn from(fault: SelectionFault) -> Trouble {
        Trouble::Refused(fault)
    }
}

impl From<AllocError> for Trouble {
    ghost from_gives = { λ e t. t ≡ NoMemory e };

    fn from(error: AllocError) -> Trouble {
        Trouble::NoMemory(error)
    }
}

impl<T: Drop> From<AllocFailed<T>> for Trouble {
    ghost from_gives = { λ _ t. t ≡ NoMemory alloc_error };

    fn from(_: AllocFailed<T>) -> Trouble {
        Trouble::NoMemory(AllocError)
    }
}
