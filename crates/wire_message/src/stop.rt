// Why a private reader stopped.
ghost use Rattle.std.specs.Prelude.{◌≡◌};
ghost use Rattle.wire_message.specs.declared.stop.Stop.TheVariants.{NoMemory as Memory};

use std::alloc::{AllocError, AllocFailed};

#[derive(Clone, Copy, PartialEq, Eq, Debug)]
pub enum Stop {
    NoMemory,
    /// The field with which so many bytes begin, the input's last ones, is not wholly there or breaks a rule.
    At(usize),
}

impl From<AllocError> for Stop {
    ghost from_gives = { λ _ stop. stop ≡ Memory };

    fn from(_refused: AllocError) -> Self {
        Stop::NoMemory
    }
}

impl<T: Drop> From<AllocFailed<T>> for Stop {
    ghost from_gives = { λ _ stop. stop ≡ Memory };

    fn from(_refused: AllocFailed<T>) -> Self {
        Stop::NoMemory
    }
}
