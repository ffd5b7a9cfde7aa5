//! The bag of pieces, and the rule of its deque.
ghost use Rattle.crossbeam_deque.specs.Handles.{stealer_flavor};
ghost use Rattle.std.specs.Prelude.{◌≡◌, ◌<◌};

use crate::piece::{Piece, piece_at};
use crate::share::{Access, BagPass, BagStealer, Share};
use crate::task::Task;
use crate::views::BagView;
use crossbeam_deque::Steal;
use crossbeam_deque::protocol::{Outcome, Protocol};
use std::sync::Wait;

/// The deque holds the pieces in order, and then the end marks.
pub struct BagProtocol;

impl Protocol<Task, BagView> for BagProtocol {
    ghost use Rattle.std.specs.Prelude.{false, []};
    ghost use Rattle.pieces.specs.Deque.{bag_view, IsInOrder};

    ghost holds = { IsInOrder };

    ghost first = { bag_view 64 0 0 false [] };

    ghost guest = { bag_view 0 0 0 false [] };
}

/// The next task is taken. A share that may take one never finds the deque empty.
struct Takes;

impl Outcome<Task, BagView> for Takes {
    ghost use Rattle.pieces.specs.Deque.{Took};

    ghost then = { Took };

    ghost empty = { λ _. ⊥ };
}

/// The pieces of the indices below n, from which shares take in order of index. Nothing is put in after
/// the start.
#[derive(Drop)]
pub struct Bag {
    pub(crate) stealer: BagStealer,
    pub(crate) n: u32,
    pub(crate) size: u32,
    ghost in_order: { stealer_flavor stealer ≡ 0 },
    ghost sized: { 0 < size },
}

impl Bag {
    ghost use Rattle.std.specs.Prelude.{ℕ, [], ◌∷◌, ◌++◌, true, IfSome, IfNone, IsNone};
    ghost use Rattle.crossbeam_deque.specs.Handles.{view, IsPassOf};
    ghost use Rattle.pieces.specs.Cuts.{first_of, end_of};
    ghost use Rattle.pieces.specs.Deque.{Took};
    ghost use Rattle.pieces.specs.Shares.{bag_view_of, IsAccessTo, SameKind, KeepsMark, taken};
    ghost use Rattle.pieces.specs.Bags.{deque_of, count_in, IsShareOf};

    pub(crate) fn of(stealer: BagStealer, n: u32, size: u32) -> Bag
        requires order { stealer_flavor stealer ≡ 0 }
        requires size { 0 < size }
        ensures { (result.stealer ≡ stealer) × (result.n ≡ n) × (result.size ≡ size) }
    {
        Bag { stealer, n, size }
    }

    /// The next piece. `None` once the share has taken an end mark, which it does when no piece is left; from
    /// then on it answers `None` without touching the deque. It takes no memory. A steal that loses its race
    /// tries again, so the call may wait; what it promises holds if it returns.
    pub fn take<R: Wait>(&self, rt: &R, share: &mut Share) -> Option<Piece>
        requires { IsShareOf self.now share.old }
        ensures bag { IsShareOf self.now share.new }
        ensures same { KeepsMark share.old share.new }

        // The piece at some position, which now stands last among those that the share took.
        ensures some { IfSome result (λ p. (k : ℕ) × (k < count_in self.now)
            × (p.first ≡ first_of self.now.size k) × (p.end ≡ end_of self.now.n self.now.size k)
            × (taken share.new ≡ taken share.old ++ k ∷ [])) }
        ensures none { IfNone result ((share.new.met ≡ true) × (taken share.new ≡ taken share.old)) }

        // A share that has met the end stays as it is.
        ensures ended { share.old.met ≡ true → IsNone result × (share.new ≡ share.old) }
    {
        if share.met {
            return None;
        }
        match self.next(rt, &mut share.access) {
            Task::Piece(k) => Some(piece_at(self.n, self.size, k)),
            Task::End => {
                share.met = true;
                None
            }
        }
    }

    /// The next task, for a share that has an end mark to take.
    fn next<R: Wait>(&self, rt: &R, access: &mut Access) -> Task
        requires access { IsAccessTo (deque_of self.now) access.old }
        requires part { (0 < (bag_view_of access.old).parts) × (0 < (bag_view_of access.old).owed) }
        ensures access { IsAccessTo (deque_of self.now) access.new × SameKind access.old access.new }
        ensures took { Took (bag_view_of access.old) (result ∷ []) (bag_view_of access.new) }
    {
        match access {
            Access::Pops(worker, _) => match worker.pop_as::<Takes>() {
                Some(task) => task,
                None => unreachable!(),
            },
            Access::Steals(pass) => self.steal(rt, pass),
        }
    }

    fn steal<R: Wait>(&self, rt: &R, pass: &mut BagPass) -> Task
        requires pass { IsPassOf (deque_of self.now) pass.old }
        requires part { (0 < (view pass.old).parts) × (0 < (view pass.old).owed) }
        ensures pass { IsPassOf (deque_of self.now) pass.new }
        ensures took { Took (view pass.old) (result ∷ []) (view pass.new) }
    {
        for _ in rt.forever() {
            match self.stealer.steal_as::<Takes>(pass) {
                Steal::Success(task) => return task,
                Steal::Empty => unreachable!(),
                Steal::Retry => {}
            }
        }
        unreachable!()
    }
}
