// A sink that remembers how its output begins.
ghost use Rattle.std.specs.Prelude.{◌≡◌, ◌≤◌};

use spie_base::{Sink, WriteFailed};

// Enough for the line of a refusal.
const FRONT: usize = 64;

/// Hands all on to a sink, and remembers the first 64 bytes that it took.
#[derive(Drop)]
pub struct FrontSink<K: Sink> {
    inner: K,
    front: [u8; 64],
    count: usize,
    ghost within: { count ≤ 64 },
}

impl<K: Sink> FrontSink<K> {
    /// Nothing is remembered yet.
    pub fn new(inner: K) -> Self {
        FrontSink {
            inner,
            front: [0; FRONT],
            count: 0,
        }
    }

    /// The first bytes that were taken, at most 64.
    pub fn front(&self) -> &[u8] {
        &self.front[..self.count]
    }

    fn remember(&mut self, taken: &[u8])
        ensures { self.new.inner ≡ self.old.inner }
    {
        let more = taken.len().min(FRONT - self.count);
        self.front[self.count..self.count + more].copy_from_slice(&taken[..more]);
        self.count += more;
    }
}

impl<K: Sink> Sink for FrontSink<K> {
    ghost written = { λ s. K.written s.inner };

    ghost faults = { λ s. K.faults s.inner };

    fn give(&mut self, piece: &[u8]) -> Result<usize, WriteFailed> {
        let count = self.inner.give(piece)?;
        self.remember(&piece[..count]);
        Ok(count)
    }
}
