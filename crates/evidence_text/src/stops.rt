// Why the reading of a line stopped.
ghost use Rattle.std.specs.Prelude.{◌≡◌};
ghost use Rattle.evidence_text.specs.declared.stops.Stop.TheVariants as stop;
ghost use Rattle.evidence_text.specs.Outcomes as outcomes;

use crate::refused::{CheckFault, CheckRefused, CheckWhy};
use spie_base::NoMemory;
use std::alloc::{AllocError, AllocFailed};

/// Why the reading of a line stopped.
#[derive(Clone, Copy, PartialEq, Eq, Debug)]
pub enum Stop {
    /// Memory was refused.
    NoMemory,
    /// The line breaks this rule.
    Rule(CheckWhy),
}

impl Stop {
    /// The answer for the whole text, where the reading stopped at this line.
    pub fn at_line(self, line: u64) -> CheckRefused
        ensures { result ≡ outcomes.stopped self line }
    {
        match self {
            Stop::NoMemory => CheckRefused::NoMemory,
            Stop::Rule(why) => CheckRefused::Refused(CheckFault { line, why }),
        }
    }
}

impl From<CheckWhy> for Stop {
    ghost from_gives = { λ why e. e ≡ stop.Rule why };

    fn from(why: CheckWhy) -> Self {
        Stop::Rule(why)
    }
}

impl From<AllocError> for Stop {
    ghost from_gives = { λ _ e. e ≡ stop.NoMemory };

    fn from(_refused: AllocError) -> Self {
        Stop::NoMemory
    }
}

impl<T: Drop> From<AllocFailed<T>> for Stop {
    ghost from_gives = { λ _ e. e ≡ stop.NoMemory };

    fn from(_refused: AllocFailed<T>) -> Self {
        Stop::NoMemory
    }
}

impl From<NoMemory> for Stop {
    ghost from_gives = { λ _ e. e ≡ stop.NoMemory };

    fn from(_refused: NoMemory) -> Self {
        Stop::NoMemory
    }
}
