// A router's passes go to the jobs and come back, without memory.
ghost use Rattle.std.specs.Prelude.{◌≡◌, ◌≤◌, [], All, length, vec_capacity};
ghost use Rattle.gate_core.specs.Invariant.{IsRising};
ghost use Rattle.page_gate.specs.Held.{PassHeld};
ghost use Rattle.trace_workers.specs.Columns.{HavePasses, HaveGiven, HaveRoom, HaveGot};

use crate::jobs::Job;
use page_gate::Pass;

/// Each job gets one of a router's passes, behind those that it has. Passes that are all alike come as one value.
pub fn spread(jobs: &mut [Job], column: &mut Vec<Pass>)
    requires many { length column.old.items ≡ length jobs.old }
    requires room { HaveRoom jobs.old }
    ensures got { (p : PassHeld) → All (λ q. q ≡ p) column.old.items → HaveGot jobs.old jobs.new p }
    ensures none { column.new.items ≡ [] }
    ensures capacity { vec_capacity column.new ≡ vec_capacity column.old }
{
    for i in 0..jobs.len() {
        let one = column.take_last();
        jobs[i].passes.push_reserved(one);
    }
}

/// Each job gives back its last pass, into a list that was emptied. They come in the order of the jobs. The pages of a
/// pass never fall, and none is below its floor.
pub fn draw(jobs: &mut [Job], column: &mut Vec<Pass>)
    requires passes { HavePasses jobs.old }
    requires none { column.old.items ≡ [] }
    requires room { length jobs.old ≤ vec_capacity column.old }
    ensures given { HaveGiven jobs.old jobs.new column.new.items }
    ensures rising { All (λ p. IsRising p.floor p.entries) column.new.items }
    ensures capacity { vec_capacity column.new ≡ vec_capacity column.old }
{
    for i in 0..jobs.len() {
        let one = jobs[i].passes.take_last();
        one.rises();
        column.push_reserved(one);
    }
}
