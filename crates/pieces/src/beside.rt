//! Calls side by side, whose threads are all started by the calling one.
ghost use Rattle.std.specs.Prelude.{◌≡◌, All};
ghost use Rattle.std.specs.Fork.{AcceptsAt, ChangesAt};
ghost use Rattle.pieces.specs.SideBySide.{EachBecomes};
ghost use denote.Param.Send.{IsSync, IsSend};

use std::thread::{Threads, join_mut};

/// Calls f at each item: at one alone on the calling thread, and at each of several in a thread of its own where one can
/// be made. The calling thread starts them all and then waits, since a system may put a new thread where the one runs that
/// made it: if that one went on to work, the new one would begin when it has ended.
pub(crate) fn each_beside<R: Threads + Sync, T: Send, F: Fn(usize, &mut T) + Sync>(
    rt: &R,
    f: &F,
    s: &mut [T],
)
    requires { All (AcceptsAt F.Fn f.now 0) s.old }
    ensures { EachBecomes (ChangesAt F.Fn f.now 0) s.old s.new }
{
    if s.len() == 1 {
        at_one(f, &mut s[0]);
    } else {
        all_beside(rt, f, s);
    }
}

fn at_one<T, F: Fn(usize, &mut T)>(f: &F, it: &mut T)
    requires { AcceptsAt F.Fn f.now 0 it.old }
    ensures { ChangesAt F.Fn f.now 0 it.old it.new }
{
    f(0, it);
}

/// Calls f at each item in a thread of its own where one can be made, and on this one where none can.
#[cycle(beside)]
fn all_beside<R: Threads + Sync, T: Send, F: Fn(usize, &mut T) + Sync>(rt: &R, f: &F, s: &mut [T])
    requires { All (AcceptsAt F.Fn f.now 0) s.old }
    ensures { EachBecomes (ChangesAt F.Fn f.now 0) s.old s.new }
{
    let count = s.len();
    if count == 0 {
        return;
    }
    let (others, last) = s.split_at_mut(count - 1);
    last_beside(rt, f, others, &mut last[0]);
}

/// A separate function from `all_beside`, so that what the closures require is what this function is given.
#[cycle(beside)]
fn last_beside<R: Threads + Sync, T: Send, F: Fn(usize, &mut T) + Sync>(
    rt: &R,
    f: &F,
    others: &mut [T],
    last: &mut T,
)
    requires others { All (AcceptsAt F.Fn f.now 0) others.old }
    requires last { AcceptsAt F.Fn f.now 0 last.old }
    ensures others { EachBecomes (ChangesAt F.Fn f.now 0) others.old others.new }
    ensures last { ChangesAt F.Fn f.now 0 last.old last.new }
{
    let mut theirs = ||
        requires { IsSync F.row × IsSend T.row × AcceptsAt F.Fn f.now 0 last.now }
        ensures { ChangesAt F.Fn f.entry.now 0 last.entry.now last.exit.now }
    { at_one(f, last) };
    let mut ours = ||
        requires { IsSync R.row × IsSync F.row × IsSend T.row × All (AcceptsAt F.Fn f.now 0) others.now }
        ensures { EachBecomes (ChangesAt F.Fn f.entry.now 0) others.entry.now others.exit.now }
    { all_beside(rt, f, others) };
    join_mut(rt, &mut theirs, &mut ours);
}
