// Where bytes come from and where they go.
ghost use Rattle.std.specs.Prelude.{◌≡◌, ◌<◌, ◌≤◌, ℕ, List, Option, length, IfOk};
ghost use Rattle.std.specs.Io.{ReadsAtMost};
ghost use Rattle.std.specs.Io.KnownBytes.{ReadConsumes, WriteAppends};
ghost use Rattle.spie_base.specs.Causes.{HasCause};

use crate::{ReadFailed, WriteFailed};

/// Where bytes are taken from.
pub trait Source {
    /// The bytes that are left, where the source tells them.
    ghost left: { Self → Option (List ℕ) };

    /// How many takes have failed, as far as the source can count.
    ghost faults: { Self → ℕ };

    /// Moves the next bytes to the beginning of the buffer, and says how many. 0 for a buffer with room
    /// means that nothing is left.
    fn take(&mut self, buf: &mut [u8]) -> Result<usize, ReadFailed>
        ensures bound { ReadsAtMost result buf.new }
        ensures bytes { ReadConsumes (left self.old) (left self.new) result buf.new }
        ensures cause { HasCause (faults self.old) (faults self.new) result };
}

/// Where bytes are written.
pub trait Sink {
    /// The bytes written, where the sink tells them.
    ghost written: { Self → Option (List ℕ) };

    /// How many gives have failed, as far as the sink can count.
    ghost faults: { Self → ℕ };

    /// Appends the first bytes of the piece, at least one where there is one, and says how many.
    fn give(&mut self, piece: &[u8]) -> Result<usize, WriteFailed>
        ensures bound { IfOk result (λ count. count ≤ length piece.now) }
        ensures some { IfOk result (λ count. 0 < length piece.now → 0 < count) }
        ensures bytes { WriteAppends (written self.old) (written self.new) result piece.now }
        ensures cause { HasCause (faults self.old) (faults self.new) result };
}
