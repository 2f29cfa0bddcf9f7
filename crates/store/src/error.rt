// Why a store refused a call.
ghost use Rattle.std.specs.Prelude.{◌≡◌};
ghost use Rattle.std.specs.IoError.{error_kind};
ghost use Rattle.store.specs.declared.error.StoreError.TheVariants.{Memory};
ghost use Rattle.store.specs.FileFacts.{refusal_of};

use std::alloc::{AllocError, AllocFailed};
use std::io;
use thiserror::Error;

/// Says why a store refused a call.
#[derive(Clone, Copy, Debug, PartialEq, Eq, Error)]
pub enum StoreError {
    /// Out of memory. The call did nothing.
    #[error("out of memory")]
    Memory,
    /// No file has this name. Only `len`, `read_at` and `read_into` answer so.
    #[error("there is no such file")]
    Missing,
    /// The device failed, and the store has counted it. A call that changes files may have been
    /// done in part.
    #[error("the device failed")]
    Device,
}

impl From<AllocError> for StoreError {
    ghost from_gives = { λ _ e. e ≡ Memory };

    fn from(_: AllocError) -> Self {
        StoreError::Memory
    }
}

impl<T: Drop> From<AllocFailed<T>> for StoreError {
    ghost from_gives = { λ _ e. e ≡ Memory };

    fn from(_: AllocFailed<T>) -> Self {
        StoreError::Memory
    }
}

/// Tells what an error of the system is, in a call that has changed nothing.
impl From<io::Error> for StoreError {
    ghost from_gives = { λ error refusal. refusal ≡ refusal_of (error_kind error) };

    fn from(error: io::Error) -> Self {
        match error.kind() {
            io::ErrorKind::NotFound => StoreError::Missing,
            io::ErrorKind::OutOfMemory => StoreError::Memory,
            _ => StoreError::Device,
        }
    }
}
