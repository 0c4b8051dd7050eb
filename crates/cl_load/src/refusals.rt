//! Why texts do not load.
use cl_forms::FormRefusal;
use cl_syntax::Path;
use std::alloc::AllocError;
use std::fmt;
use thiserror::Error;

/// Why a text does not load.
#[derive(Drop, Error)]
pub enum LoadRefusal {
    /// The number of the refusal, and its offset in bytes.
    #[error("refused {0} at {1}")]
    Refused(u8, u32),
    /// Refusal 11: the offset of the first `updating-output` whose cache does not cover what its body reads, and the first path that the
    /// body reads and the cache does not cover.
    #[error("refused 11 at {0}")]
    Uncovered(u32, Path),
    #[error("out of memory")]
    Memory,
}

impl fmt::Debug for LoadRefusal {
    fn fmt<W: fmt::Write>(&self, f: &mut fmt::Formatter<W>) -> fmt::Result {
        f.write_str(match self {
            LoadRefusal::Refused(..) => "Refused",
            LoadRefusal::Uncovered(..) => "Uncovered",
            LoadRefusal::Memory => "Memory",
        })
    }
}

impl From<FormRefusal> for LoadRefusal {
    ghost use Rattle.std.specs.Prelude.{◌≡◌};
    ghost use Rattle.cl_load.specs.Reason.{load_refusal_of};

    ghost from_gives = { λ r e. e ≡ load_refusal_of r };

    fn from(refusal: FormRefusal) -> LoadRefusal {
        match refusal {
            FormRefusal::Refused(number, at) => LoadRefusal::Refused(number, at),
            FormRefusal::Memory => LoadRefusal::Memory,
        }
    }
}

impl From<AllocError> for LoadRefusal {
    ghost use Rattle.std.specs.Prelude.{◌≡◌};
    ghost use Rattle.cl_load.specs.declared.refusals.LoadRefusal.TheVariants.{Memory};

    ghost from_gives = { λ _ e. e ≡ Memory };

    fn from(_: AllocError) -> LoadRefusal {
        LoadRefusal::Memory
    }
}
