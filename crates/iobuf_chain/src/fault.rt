//! Why a call that cuts a chain is refused.
use std::alloc::AllocError;
use thiserror::Error;

/// Why a call that asks for bytes of a chain is refused.
#[derive(Debug, Clone, Copy, PartialEq, Eq, Drop, Error)]
pub enum CutFault {
    /// More bytes are asked for than there are. Nothing changed.
    #[error("{asked} bytes are asked for, and there are {had}")]
    Short { asked: usize, had: usize },
    /// Memory is refused.
    #[error("no memory")]
    NoMemory,
}

impl From<AllocError> for CutFault {
    ghost use Rattle.std.specs.Prelude.{◌≡◌};
    ghost use Rattle.iobuf_chain.specs.declared.fault.CutFault.TheVariants.{NoMemory};

    ghost from_gives = { λ _ e. e ≡ NoMemory };

    fn from(_: AllocError) -> CutFault {
        CutFault::NoMemory
    }
}
