// What a flood sees of a router.
ghost use Rattle.std.specs.Prelude.{◌≡◌, IfOk};
ghost use Rattle.std.specs.List.{Contains};
ghost use Rattle.std.specs.List.Sorted.{IsStrictlySortedBy};
ghost use Rattle.spie_base.specs.Order.{sig_cmp};
ghost use Rattle.spie_base.specs.Shown.{Shown};

use crate::{NoMemory, Sig};
use std::alloc::Global;

/// What a flood sees of a router: its pages and transforms of a window of time.
pub trait Sighting {
    ghost shown: { Self → Shown };

    /// Whether a page that is at hand has all marks of a signature.
    fn hit(&self, sig: &Sig) -> bool
        ensures { result ≡ (shown self.now).hit sig.now };

    /// The signatures that a packet may have had before this router, ascending. The signature itself is one.
    fn origins(&self, alloc: Global, sig: &Sig) -> Result<Vec<Sig>, NoMemory>
        ensures exact { IfOk result (λ found. found.items ≡ (shown self.now).origins sig.now) }
        ensures ascending { IfOk result (λ found. IsStrictlySortedBy sig_cmp found.items) }
        ensures itself { IfOk result (λ found. Contains found.items sig.now) };

    /// Whether a page of the window is expired or can't be read.
    fn has_missing(&self) -> bool
        ensures { result ≡ (shown self.now).missing };
}
