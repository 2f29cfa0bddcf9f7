// What the system answered to a call that failed.
ghost use Rattle.std.specs.Prelude.{◌≡◌};
ghost use Rattle.std.specs.IoError.{error_kind};
ghost use Rattle.store.specs.declared.error.StoreError.TheVariants.{Memory};
ghost use Rattle.store.specs.FileFacts.{refusal_of};

use crate::{ShortName, StoreError, Why};
use std::alloc::{AllocError, AllocFailed};
use std::io;

// The system's numbers of the errors if no more files can be open, in the system or in the process.
const FULL_SYSTEM: i32 = 23;

const FULL_PROCESS: i32 = 24;

/// Says what a failed call is to a store, and the system's number of the error, if it gave one.
#[derive(Clone, Copy, Debug)]
pub struct Failure {
    pub error: StoreError,
    pub code: Option<i32>,
    /// What was wrong, if it was found before the system was asked.
    pub why: Option<Why>,
}

impl Failure {
    ghost use Rattle.std.specs.Prelude.{◌≡◌};

    /// Returns a failure for which the system gave no number.
    pub fn untold(error: StoreError) -> Self
        ensures { result.error ≡ error }
    {
        Failure {
            error,
            code: None,
            why: None,
        }
    }

    /// Returns a failure of the device, of which the store itself found what was wrong.
    pub fn because(why: Why) -> Self
        ensures { result.error ≡ StoreError.Device }
    {
        Failure {
            why: Some(why),
            ..Failure::untold(StoreError::Device)
        }
    }

    /// Returns a failure of the device, whatever the system answered.
    pub fn of_device(error: io::Error) -> Self
        ensures { result.error ≡ StoreError.Device }
    {
        Failure {
            error: StoreError::Device,
            code: error.raw_os_error(),
            why: None,
        }
    }
}

impl From<AllocError> for Failure {
    ghost from_gives = { λ _ failure. failure.error ≡ Memory };

    fn from(_: AllocError) -> Self {
        Failure::untold(StoreError::Memory)
    }
}

impl<T: Drop> From<AllocFailed<T>> for Failure {
    ghost from_gives = { λ _ failure. failure.error ≡ Memory };

    fn from(_: AllocFailed<T>) -> Self {
        Failure::untold(StoreError::Memory)
    }
}

/// Tells what an error of the system is, in a call that has changed nothing.
impl From<io::Error> for Failure {
    ghost from_gives = { λ error failure. failure.error ≡ refusal_of (error_kind error) };

    fn from(error: io::Error) -> Self {
        Failure {
            error: StoreError::from(error),
            code: error.raw_os_error(),
            why: None,
        }
    }
}

/// Says why a folder wasn't listed, and at which name: none if it is the folder as a whole.
#[derive(Clone, Copy, Debug)]
pub struct Unlisted {
    pub failure: Failure,
    pub name: ShortName,
}

impl Unlisted {
    /// Returns the failure at this name, or of the folder as a whole if it is empty.
    pub fn at(name: &str, failure: Failure) -> Self {
        Unlisted {
            failure,
            name: ShortName::of(name),
        }
    }
}

impl From<AllocError> for Unlisted {
    fn from(error: AllocError) -> Self {
        Unlisted::at("", Failure::from(error))
    }
}

impl<T: Drop> From<AllocFailed<T>> for Unlisted {
    fn from(error: AllocFailed<T>) -> Self {
        Unlisted::at("", Failure::from(error))
    }
}

impl From<io::Error> for Unlisted {
    fn from(error: io::Error) -> Self {
        Unlisted::at("", Failure::from(error))
    }
}

/// Says whether an error is that no more files can be open.
pub fn is_full(error: &io::Error) -> bool {
    match error.raw_os_error() {
        Some(code) => code == FULL_PROCESS || code == FULL_SYSTEM,
        None => false,
    }
}
