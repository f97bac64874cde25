// Who watches the lines of a segment go by.
ghost use Rattle.std.specs.Prelude.{◌<◌, IfSome, length};

use page_gate::Pass;
use std::sync::Wait;
use std::thread::Threads;

/// Is called round each line, from the thread that does it, with the line's number. Both calls may wait.
pub trait Turnstile: Sync {
    fn before<R: Threads + Wait + Sync>(&self, rt: &R, line: u64);

    /// For a record line with the pass by which it was recorded, else with None.
    fn after<R: Threads + Wait + Sync>(&self, rt: &R, line: u64, pass: Option<&Pass>)
        requires recorded { IfSome pass (λ p. 0 < length p.now.entries) };
}

/// Lets every line pass.
pub struct Free;

impl Turnstile for Free {
    fn before<R: Threads + Wait + Sync>(&self, _rt: &R, _line: u64) {}

    fn after<R: Threads + Wait + Sync>(&self, _rt: &R, _line: u64, _pass: Option<&Pass>) {}
}
