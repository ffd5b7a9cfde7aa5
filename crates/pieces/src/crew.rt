//! All workers, each on a thread of its own where one can be started.
ghost use Rattle.std.specs.Prelude.{◌≡◌, ◌<◌, ◌≤◌, ℕ, All, length, slice_index_or};
ghost use Rattle.pieces.specs.Crew.{IsReady, IsDone};

use crate::bag::Bag;
use crate::beside::each_beside;
use crate::job::Job;
use crate::mark::Mark;
use crate::member::Member;
use crate::work::work;
use std::sync::Wait;
use std::thread::Threads;

/// Runs one worker. One that finds no memory for an answer lowers the mark to 0, so that the others pass
/// over what is left.
fn run_member<R: Wait, J: Job>(
    rt: &R,
    job: &J,
    bag: &Bag,
    mark: &Mark,
    member: &mut Member<J::Local, J::Out, J::Fault>,
)
    requires n { bag.now.n ≤ J.limit job.now }
    requires ready { IsReady bag.now mark.now (J.belongs job.now) member.old }
    ensures { IsDone bag.now mark.now (J.passes job.now) (J.gives job.now) (J.refuses job.now) member.old member.new }
{
    let Member {
        share,
        local,
        answers,
        short,
    } = member;
    if work(rt, job, bag, mark, share, local, &mut **answers).is_err() {
        *short = true;
        mark.lower(share, 0);
    }
}

/// A worker whose thread cannot be started runs on the calling thread, once the later ones are started.
fn run_each<R: Threads + Wait + Sync, J: Job + Sync>(
    rt: &R,
    job: &J,
    bag: &Bag,
    mark: &Mark,
    crew: &mut [Member<J::Local, J::Out, J::Fault>],
)
    requires n { bag.now.n ≤ J.limit job.now }
    requires some { 0 < length crew.old }
    requires ready { All (IsReady bag.now mark.now (J.belongs job.now)) crew.old }
    ensures { (i : ℕ) (d : _) → i < length crew.old
        → IsDone bag.now mark.now (J.passes job.now) (J.gives job.now) (J.refuses job.now)
        (slice_index_or crew.old i d) (slice_index_or crew.new i d) }
{
    let one = |_: usize, member: &mut Member<J::Local, J::Out, J::Fault>|
        requires { (bag.now.n ≤ J.limit job.now) × IsReady bag.now mark.now (J.belongs job.now) member.old }
        ensures { IsDone bag.entry.now mark.entry.now (J.passes job.entry.now) (J.gives job.entry.now) (J.refuses job.entry.now)
            member.old member.new }
    { run_member(rt, job, bag, mark, member) };
    each_beside(rt, &one, crew);
}

/// Runs all workers, and gives them back.
pub(crate) fn run_crew<R: Threads + Wait + Sync, J: Job + Sync>(
    rt: &R,
    job: &J,
    bag: &Bag,
    mark: &Mark,
    mut crew: Vec<Member<J::Local, J::Out, J::Fault>>,
) -> Vec<Member<J::Local, J::Out, J::Fault>>
    requires n { bag.now.n ≤ J.limit job.now }
    requires some { 0 < length crew.items }
    requires ready { All (IsReady bag.now mark.now (J.belongs job.now)) crew.items }
    ensures len { length result.items ≡ length crew.items }
    ensures each { (i : ℕ) (d : _) → i < length crew.items
        → IsDone bag.now mark.now (J.passes job.now) (J.gives job.now) (J.refuses job.now)
        (slice_index_or crew.items i d) (slice_index_or result.items i d) }
{
    run_each(rt, job, bag, mark, crew.as_mut_slice());
    crew
}
