// Why a value was not read.
ghost use Rattle.std.specs.Prelude.{◌≡◌};
ghost use Rattle.network_bytes.specs.declared.stop.ReadStop.TheVariants.{NoMemory};

use std::alloc::{AllocError, AllocFailed};

/// Why a value was not read.
#[derive(Clone, Copy, Debug, PartialEq, Eq)]
pub enum ReadStop {
    /// The bytes are cut off, or are no form of a value.
    Broken,
    /// Memory was wanting.
    NoMemory,
}

impl From<AllocError> for ReadStop {
    ghost from_gives = { λ _ e. e ≡ NoMemory };

    fn from(_e: AllocError) -> ReadStop {
        ReadStop::NoMemory
    }
}

impl<T: Drop> From<AllocFailed<T>> for ReadStop {
    ghost from_gives = { λ _ e. e ≡ NoMemory };

    fn from(_e: AllocFailed<T>) -> ReadStop {
        ReadStop::NoMemory
    }
}
