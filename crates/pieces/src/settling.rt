//! What all the shares of one bag and one mark did.
ghost use Rattle.std.specs.Prelude.{◌≡◌, ◌<◌, ℕ, [], map};
ghost use Rattle.crossbeam_deque.specs.Handles.{worker_deque, worker_view};
ghost use Rattle.pieces.specs.Shares.{IsWhole, EachShare, IsIn, IsOn, IsStealing, count_of};
ghost use Rattle.pieces.specs.Absorbing.{Absorbs};
ghost use Rattle.pieces.specs.Ledger.{log_of, Settles};

use crate::mark::Register;
use crate::share::{Access, BagOwner, Share};
use crate::task::Task;
use crate::views::{BagView, MarkView};
use atomic_table::{Play, Seat};
use crossbeam_deque::protocol::{Join, Lesson};
use std::marker::Model;
use std::snapshot::Snapshot;

/// Two passes, or two seats, as one.
struct Joined;

impl Join<BagView> for Joined {
    ghost use Rattle.std.specs.Prelude.{false, []};
    ghost use Rattle.pieces.specs.Deque.{bag_view, joined_bag_view};

    ghost both = { joined_bag_view };

    ghost spent = { bag_view 0 0 0 false [] };
}

impl Join<MarkView> for Joined {
    ghost use Rattle.std.specs.Prelude.{[]};
    ghost use Rattle.pieces.specs.MarkRule.{mark_view, joined_mark_view};

    ghost both = { joined_mark_view };

    ghost spent = { mark_view 0 [] [] [] };
}

/// What is told to one that has all parts.
struct Whole;

impl Lesson<Task, BagView> for Whole {
    ghost use Rattle.pieces.specs.Deque.{KnowsPieces};

    ghost fact = { λ v items. KnowsPieces v };
}

impl Play<(), MarkView> for Whole {
    ghost use Rattle.std.specs.Prelude.{◌≡◌};
    ghost use Rattle.pieces.specs.MarkRule.{KnowsHistory};

    ghost then = { λ s m n w. (w ≡ m) × KnowsHistory m.0 };
}

/// What the shares of one bag and one mark did. Clauses see it as a list with a `Log` for each share;
/// it takes no room.
#[derive(Drop)]
pub struct Settled {
    shares: Snapshot<Vec<Share>>,
}

impl Model for Settled {
    ghost use Rattle.std.specs.Prelude.{List, map};
    ghost use Rattle.pieces.specs.Ledger.{Log, log_of};

    ghost Value = { List Log };

    ghost view = { λ s. map log_of s.shares.value.items };
}

/// Takes the passes and the seats of the other shares into the first one's.
fn absorb_others(
    owner: &mut BagOwner,
    table: &Register,
    seat: &mut Seat<(), MarkView>,
    mut others: Vec<Share>,
)
    requires parts { (0 < (worker_view owner.old).parts) × (0 < seat.old.me.0.parts) }
    requires seat { (seat.old.table_id ≡ table.now.shared.table_id) × (table.now.shared.table_id.words ≡ 1) }
    requires others { (count : ℕ) × EachShare (IsIn (worker_deque owner.old) count) others.items
        × EachShare (IsOn table.now.shared.table_id) others.items
        × EachShare (λ t. IsStealing t.access) others.items }
    ensures same { (worker_deque owner.new ≡ worker_deque owner.old) × (seat.new.table_id ≡ seat.old.table_id) }
    ensures all { Absorbs (worker_view owner.new) seat.new.me.0 [] (worker_view owner.old) seat.old.me.0 others.items }
{
    while let Some(share) = others.pop() {
        let Share {
            access,
            seat: theirs,
            met: _,
        } = share;
        let Access::Steals(pass) = access else {
            unreachable!()
        };
        owner.absorb::<Joined>(pass);
        table.shared.join_seat::<Joined>(seat, theirs);
    }
}

/// What all the shares of one `open` did, once their threads are joined. It needs them all, each once.
pub fn settle(mut shares: Vec<Share>) -> Settled
    requires { IsWhole shares.items }
    ensures logs { result ≡ map log_of shares.items }
    ensures told { Settles (count_of shares.items) result }
{
    let was = Snapshot::of(&shares);
    let Share {
        access,
        mut seat,
        met: _,
    } = shares.remove(0);
    let Access::Pops(mut owner, table) = access else {
        unreachable!()
    };
    let table: &Register = &table;
    absorb_others(&mut owner, table, &mut seat, shares);
    owner.len_as::<Whole>();
    table.shared.load::<Whole>(&mut seat, 0);
    Settled { shares: was }
}
