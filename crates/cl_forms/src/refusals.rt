//! Why forms are refused.
use std::alloc::{AllocError, AllocFailed};
use thiserror::Error;

/// Why forms of a text are refused.
#[derive(Debug, Drop, Error)]
pub enum FormRefusal {
    /// The number of the refusal, and its offset in bytes.
    #[error("refused {0} at {1}")]
    Refused(u8, u32),
    #[error("out of memory")]
    Memory,
}

impl From<AllocError> for FormRefusal {
    ghost use Rattle.std.specs.Prelude.{◌≡◌};
    ghost use Rattle.cl_forms.specs.declared.refusals.FormRefusal.TheVariants.{Memory};

    ghost from_gives = { λ _ e. e ≡ Memory };

    fn from(_: AllocError) -> FormRefusal {
        FormRefusal::Memory
    }
}

impl<T: Drop> From<AllocFailed<T>> for FormRefusal {
    ghost use Rattle.std.specs.Prelude.{◌≡◌};
    ghost use Rattle.cl_forms.specs.declared.refusals.FormRefusal.TheVariants.{Memory};

    ghost from_gives = { λ _ e. e ≡ Memory };

    fn from(_: AllocFailed<T>) -> FormRefusal {
        FormRefusal::Memory
    }
}
