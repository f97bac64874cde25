// Sources and sinks over memory, some of whose calls fail: for tests, and for whoever holds the bytes.
ghost use Rattle.std.specs.Io.{ReadsAtMost};
ghost use Rattle.std.specs.Io.KnownBytes.{ReadConsumes, WriteAppends};
ghost use Rattle.spie_base.specs.Causes.{HasCause};
ghost use Rattle.spie_base.specs.Memory.{supply_after, store_after, is_listed, is_failing, taken, given};
ghost use Rattle.std.specs.Prelude.{◌≡◌, ◌≤◌, ◌<◌, ◌+◌, ◌-◌, ◌++◌, [], true, false, Some, IfOk, OnOk, OnErr, length, take, min};

use crate::{NoMemory, ReadFailed, Sink, Source, WriteFailed};
use std::alloc::Global;
use std::marker::Model;

// Whether a call's number is among those listed.
fn is_listed(listed: &[u64], call: u64) -> bool
    ensures { result ≡ is_listed listed.now call }
{
    listed.iter().any(|other| *other == call)
}

/// Bytes, given a few at a time.
#[derive(Drop)]
pub struct MemSource {
    bytes: Vec<u8>,
    at: usize,
    step: usize,
    failing: Vec<u64>,
    calls: u64,
    faults: u64,
}

impl Model for MemSource {
    ghost use Rattle.std.specs.Prelude.{◌≤◌, drop, length};
    ghost use Rattle.spie_base.specs.Memory.{Supply};

    ghost Value = { Supply };

    ghost view = { λ s. record { rest = drop s.at s.bytes.items; step = s.step; failing = s.failing.items; calls = s.calls; faulty = s.faults } };

    ghost invariant = { λ s. (s.at ≤ length s.bytes.items) × (1 ≤ s.step) };
}

impl MemSource {
    /// Gives at most `step` bytes at each call. Calls are numbered from 0, and those listed fail.
    pub fn new(
        alloc: Global,
        bytes: &[u8],
        step: usize,
        failing: &[u64],
    ) -> Result<MemSource, NoMemory>
        requires { 1 ≤ step }
        ensures { IfOk result (λ s. s ≡ record { rest = bytes.now; step = step; failing = failing.now; calls = 0; faulty = 0 }) }
    {
        Ok(MemSource {
            bytes: Vec::from_slice(alloc, bytes)?,
            at: 0,
            step,
            failing: Vec::from_slice(alloc, failing)?,
            calls: 0,
            faults: 0,
        })
    }
}

// Moves the first bytes to the beginning of the buffer, as many as fit and at most `step`.
fn move_front(bytes: &[u8], buf: &mut [u8], step: usize) -> usize
    ensures count { result ≡ min (min (length buf.old) step) (length bytes.now) }
    ensures moved { take result buf.new ≡ take result bytes.now }
{
    let count = buf.len().min(step).min(bytes.len());
    buf[..count].copy_from_slice(&bytes[..count]);
    count
}

impl Source for MemSource {
    ghost left = { λ s. Some s.rest };

    ghost faults = { λ s. s.faulty };

    fn take(&mut self, buf: &mut [u8]) -> Result<usize, ReadFailed>
        ensures bound { ReadsAtMost result buf.new }
        ensures bytes { ReadConsumes (Some self.old.rest) (Some self.new.rest) result buf.new }
        ensures cause { HasCause self.old.faulty self.new.faulty result }

        // Which calls fail, and what each does.
        ensures listed { OnErr result (is_listed self.old.failing self.old.calls ≡ true) }
        ensures unlisted { OnOk result (is_listed self.old.failing self.old.calls ≡ false) }
        ensures count { IfOk result (λ count. count ≡ taken self.old (length buf.old)) }
        ensures after { self.new ≡ supply_after self.old (length buf.old) }
    {
        let call = self.calls;
        self.calls = call.saturating_add(1);
        if is_listed(&self.failing, call) {
            self.faults = self.faults.saturating_add(1);
            return Err(ReadFailed);
        }
        let count = move_front(&self.bytes[self.at..], buf, self.step);
        self.at += count;
        Ok(count)
    }
}

/// Room for bytes, taken a few at a time.
#[derive(Drop)]
pub struct MemSink {
    cells: Vec<u8>,
    used: usize,
    step: usize,
    failing: Vec<u64>,
    calls: u64,
    faults: u64,
}

impl Model for MemSink {
    ghost use Rattle.std.specs.Prelude.{◌≤◌, take, length};
    ghost use Rattle.spie_base.specs.Memory.{Store};

    ghost Value = { Store };

    ghost view = { λ s. record { held = take s.used s.cells.items; step = s.step; room = length s.cells.items; failing = s.failing.items; calls = s.calls; faulty = s.faults } };

    ghost invariant = { λ s. (s.used ≤ length s.cells.items) × (1 ≤ s.step) };
}

impl MemSink {
    /// Takes at most `step` bytes at each call, and `room` in all, which it reserves. Calls are numbered
    /// from 0, and those listed fail, as does each call once the room is used up.
    pub fn new(
        alloc: Global,
        step: usize,
        room: usize,
        failing: &[u64],
    ) -> Result<MemSink, NoMemory>
        requires { 1 ≤ step }
        ensures { IfOk result (λ s. s ≡ record { held = []; step = step; room = room; failing = failing.now; calls = 0; faulty = 0 }) }
    {
        Ok(MemSink {
            cells: vec![in alloc; 0; room]?,
            used: 0,
            step,
            failing: Vec::from_slice(alloc, failing)?,
            calls: 0,
            faults: 0,
        })
    }

    /// The bytes that were taken.
    pub fn written(&self) -> &[u8]
        ensures { result.now ≡ self.now.held }
    {
        &self.cells[..self.used]
    }
}

// Puts the first bytes of the piece behind what is used, as many as fit and at most `step`.
fn put_behind(cells: &mut [u8], used: usize, piece: &[u8], step: usize) -> usize
    requires { used ≤ length cells.old }
    ensures count { result ≡ min (min (length piece.now) step) (length cells.old - used) }
    ensures put { take (used + result) cells.new ≡ take used cells.old ++ take result piece.now }
    ensures len { length cells.new ≡ length cells.old }
{
    let count = piece.len().min(step).min(cells.len() - used);
    cells[used..used + count].copy_from_slice(&piece[..count]);
    count
}

impl Sink for MemSink {
    ghost written = { λ s. Some s.held };

    ghost faults = { λ s. s.faulty };

    fn give(&mut self, piece: &[u8]) -> Result<usize, WriteFailed>
        ensures bound { IfOk result (λ count. count ≤ length piece.now) }
        ensures some { IfOk result (λ count. 0 < length piece.now → 0 < count) }
        ensures bytes { WriteAppends (Some self.old.held) (Some self.new.held) result piece.now }
        ensures cause { HasCause self.old.faulty self.new.faulty result }

        // Which calls fail, and what each does.
        ensures failing { OnErr result (is_failing self.old ≡ true) }
        ensures open_still { OnOk result (is_failing self.old ≡ false) }
        ensures count { IfOk result (λ count. count ≡ given self.old piece.now) }
        ensures after { self.new ≡ store_after self.old piece.now }
    {
        let call = self.calls;
        self.calls = call.saturating_add(1);
        if self.used == self.cells.len() || is_listed(&self.failing, call) {
            self.faults = self.faults.saturating_add(1);
            return Err(WriteFailed);
        }
        let count = put_behind(&mut self.cells, self.used, piece, self.step);
        self.used += count;
        Ok(count)
    }
}
