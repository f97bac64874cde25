// Why a call gave no answer.
ghost use Rattle.std.specs.Prelude.{◌≡◌};
ghost use Rattle.spie_base.specs.declared.errors.ReadRefused.TheVariants as refused;

use std::alloc::{AllocError, AllocFailed};

/// Memory was refused.
#[derive(Clone, Copy, PartialEq, Eq, Debug)]
pub struct NoMemory;

impl From<AllocError> for NoMemory {
    fn from(_refused: AllocError) -> Self {
        NoMemory
    }
}

impl<T: Drop> From<AllocFailed<T>> for NoMemory {
    fn from(_refused: AllocFailed<T>) -> Self {
        NoMemory
    }
}

/// A read failed. Nothing was taken.
#[derive(Clone, Copy, PartialEq, Eq, Debug)]
pub struct ReadFailed;

/// A write failed. Nothing was appended.
#[derive(Clone, Copy, PartialEq, Eq, Debug)]
pub struct WriteFailed;

/// Why an input was not read whole.
#[derive(Clone, Copy, PartialEq, Eq, Debug)]
pub enum ReadRefused {
    /// The source failed.
    Failed,
    /// There are more bytes than were asked for.
    TooLong,
    /// Memory was refused.
    NoMemory,
}

impl From<ReadFailed> for ReadRefused {
    ghost from_gives = { λ _ refusal. refusal ≡ refused.Failed };

    fn from(_failed: ReadFailed) -> Self {
        ReadRefused::Failed
    }
}

impl From<AllocError> for ReadRefused {
    ghost from_gives = { λ _ refusal. refusal ≡ refused.NoMemory };

    fn from(_refused: AllocError) -> Self {
        ReadRefused::NoMemory
    }
}
