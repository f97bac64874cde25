// The names of records, and why a call was refused.
ghost use Rattle.std.specs.Prelude.{◌≡◌};
ghost use Rattle.page_shelf.specs.declared.names.ShelfRefused.TheVariants.{NoMemory};

use spie_base::{PageNo, RouterId};
use std::alloc::{AllocError, AllocFailed};

/// Which of a page's two records.
#[derive(Clone, Copy, PartialEq, Eq, Debug)]
pub enum ShelfPart {
    /// Its bits and times.
    Bits,
    /// Its transforms.
    Rows,
}

/// The name of a record.
#[derive(Clone, Copy, PartialEq, Eq, Debug)]
pub struct ShelfName {
    pub router: RouterId,
    pub page: PageNo,
    pub part: ShelfPart,
}

/// Why a call of a shelf was refused.
#[derive(Clone, Copy, PartialEq, Eq, Debug)]
pub enum ShelfRefused {
    /// The shelf failed, and has counted it.
    Failed,
    /// Memory was refused. This is no fault of the shelf.
    NoMemory,
}

impl From<AllocError> for ShelfRefused {
    ghost from_gives = { λ _ e. e ≡ NoMemory };

    fn from(_: AllocError) -> Self {
        ShelfRefused::NoMemory
    }
}

impl<T: Drop> From<AllocFailed<T>> for ShelfRefused {
    ghost from_gives = { λ _ e. e ≡ NoMemory };

    fn from(_: AllocFailed<T>) -> Self {
        ShelfRefused::NoMemory
    }
}
