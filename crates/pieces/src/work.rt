//! What one worker does.
ghost use Rattle.std.specs.Prelude.{◌≡◌, ◌<◌, ◌≤◌, ℕ, List, [], true, OnOk, All};
ghost use Rattle.pieces.specs.Shares.{IsFresh, KeepsBag, SameKind, taken, own_calls, bag_parts, mark_parts};
ghost use Rattle.pieces.specs.Bags.{IsShareOf, HasSeatAt};
ghost use Rattle.pieces.specs.Gathered.{Allowed};
ghost use Rattle.pieces.specs.Working.{Answers, Answering, RunsOne};

use crate::bag::Bag;
use crate::job::{Job, JobFault};
use crate::mark::Mark;
use crate::piece::Piece;
use crate::share::Share;
use std::alloc::AllocError;
use std::sync::Wait;

/// Runs one index, or passes it over where the mark is smaller. A refusal, or running out of memory, lowers the
/// mark before its answer is kept.
fn run_index<R: Wait, J: Job>(
    rt: &R,
    job: &J,
    mark: &Mark,
    share: &mut Share,
    local: &mut J::Local,
    answers: &mut Vec<(u32, Result<J::Out, JobFault<J::Fault>>)>,
    n: u32,
    index: u32,
) -> Result<(), AllocError>
    requires mark { HasSeatAt mark.now share.old }
    requires local { J.belongs job.now local.old }
    requires index { (index < n) × (n ≤ J.limit job.now) }
    requires allowed { All (Allowed (J.passes job.now) (J.gives job.now) (J.refuses job.now) n) answers.old.items }
    ensures mark { HasSeatAt mark.now share.new × (mark_parts share.new ≡ mark_parts share.old) }
    ensures same { KeepsBag share.old share.new }
    ensures local { J.belongs job.now local.new }
    ensures allowed { OnOk result (All (Allowed (J.passes job.now) (J.gives job.now) (J.refuses job.now) n) answers.new.items) }
    ensures answers { OnOk result (RunsOne index (own_calls share.old) answers.old.items (own_calls share.new) answers.new.items) }
{
    if let Some(least) = mark.read(share) {
        if least < index {
            return Ok(());
        }
    }
    let answer = job.run(rt, local, index);
    if answer.is_err() {
        mark.lower(share, index);
    }
    answers.push((index, answer))?;
    Ok(())
}

/// Runs the indices of one piece, but for those above the mark.
fn run_piece<R: Wait, J: Job>(
    rt: &R,
    job: &J,
    mark: &Mark,
    share: &mut Share,
    local: &mut J::Local,
    answers: &mut Vec<(u32, Result<J::Out, JobFault<J::Fault>>)>,
    n: u32,
    piece: Piece,
) -> Result<(), AllocError>
    requires mark { HasSeatAt mark.now share.old }
    requires local { J.belongs job.now local.old }
    requires piece { (piece.end ≤ n) × (n ≤ J.limit job.now) }
    requires allowed { All (Allowed (J.passes job.now) (J.gives job.now) (J.refuses job.now) n) answers.old.items }
    ensures mark { HasSeatAt mark.now share.new × (mark_parts share.new ≡ mark_parts share.old) }
    ensures same { KeepsBag share.old share.new }
    ensures local { J.belongs job.now local.new }
    ensures allowed { OnOk result (All (Allowed (J.passes job.now) (J.gives job.now) (J.refuses job.now) n) answers.new.items) }

    // What was answered before this piece may be of any cutting.
    ensures answers { OnOk result ((size n : ℕ) (before : List ℕ)
        → Answering size n piece.first piece.first before (own_calls share.old) answers.old.items → piece.first ≤ piece.end
        → Answering size n piece.first piece.end before (own_calls share.new) answers.new.items) }
{
    for index in piece.first..piece.end {
        run_index(rt, job, mark, share, local, answers, n, index)?;
    }
    Ok(())
}

/// Takes pieces until none is left. Where an answer finds no memory it stops at once.
pub(crate) fn work<R: Wait, J: Job>(
    rt: &R,
    job: &J,
    bag: &Bag,
    mark: &Mark,
    share: &mut Share,
    local: &mut J::Local,
    answers: &mut Vec<(u32, Result<J::Out, JobFault<J::Fault>>)>,
) -> Result<(), AllocError>
    requires n { bag.now.n ≤ J.limit job.now }
    requires bag { IsShareOf bag.now share.old }
    requires mark { HasSeatAt mark.now share.old }
    requires fresh { IsFresh share.old × (answers.old.items ≡ []) }
    requires local { J.belongs job.now local.old }
    ensures bag { IsShareOf bag.now share.new × (bag_parts share.new ≡ bag_parts share.old)
        × SameKind share.old.access share.new.access }
    ensures mark { HasSeatAt mark.now share.new × (mark_parts share.new ≡ mark_parts share.old) }
    ensures met { OnOk result (share.new.met ≡ true) }
    ensures allowed { OnOk result (All (Allowed (J.passes job.now) (J.gives job.now) (J.refuses job.now) bag.now.n) answers.new.items) }
    ensures answers { OnOk result (Answers bag.now.size bag.now.n (taken share.new) (own_calls share.new) answers.new.items) }
{
    for _ in rt.forever() {
        let Some(piece) = bag.take(rt, share) else {
            return Ok(());
        };
        run_piece(rt, job, mark, share, local, answers, bag.n, piece)?;
    }
    unreachable!()
}
