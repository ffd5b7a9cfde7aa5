//! A bag with all pieces, a mark that nothing has lowered, and the shares of the workers.
ghost use Rattle.std.specs.Prelude.{◌≡◌, ◌+◌, ◌-◌, ◌<◌, ◌≤◌, [], false, IfOk, OnOk, vec_len};
ghost use Rattle.crossbeam_deque.specs.Handles.{worker_deque, worker_flavor, worker_capacity, worker_index, worker_view, SameWorker};
ghost use Rattle.std.specs.Arc.{arc_value};
ghost use Rattle.pieces.specs.Deque.{bag_view};
ghost use Rattle.pieces.specs.MarkRule.{mark_view};
ghost use Rattle.pieces.specs.Shares.{EachShare, IsNew, IsCrew, IsFresh, SameDeque};
ghost use Rattle.pieces.specs.Bags.{AreSharesOf};

use crate::bag::Bag;
use crate::mark::{Mark, NOTHING, Register};
use crate::plan::Plan;
use crate::share::{Access, BagOwner, Share};
use crate::task::Task;
use crate::views::{BagView, MarkView};
use atomic_table::{Seat, Table};
use crossbeam_deque::protocol::{Outcome, Split};
use std::alloc::{AllocError, Global};
use std::sync::Arc;

struct Adds;

impl Outcome<Task, BagView> for Adds {
    ghost use Rattle.pieces.specs.Deque.{Adds};

    ghost then = { Adds };
}

struct AddsEnd;

impl Outcome<Task, BagView> for AddsEnd {
    ghost use Rattle.pieces.specs.Deque.{AddsEnd};

    ghost then = { AddsEnd };
}

/// A new share gets one part of the right to know the whole, and one end mark to take.
struct OnePart;

impl Split<BagView> for OnePart {
    ghost use Rattle.pieces.specs.Deque.{kept_bag_view, given_bag_view};

    ghost left = { kept_bag_view };

    ghost right = { given_bag_view };
}

impl Split<MarkView> for OnePart {
    ghost use Rattle.pieces.specs.MarkRule.{kept_mark_view, given_mark_view};

    ghost left = { kept_mark_view };

    ghost right = { given_mark_view };
}

/// A push never fails, since the deque began with room for every piece and every end mark.
fn add_piece(owner: &mut BagOwner, position: u64)
    requires room { worker_index owner.old < worker_capacity owner.old }
    requires view { worker_view owner.old ≡ bag_view 64 0 position false [] }
    ensures same { SameWorker owner.old owner.new × (worker_index owner.new ≡ worker_index owner.old + 1) }
    ensures view { worker_view owner.new ≡ bag_view 64 0 (position + 1) false [] }
{
    match owner.push_as::<Adds>(Task::Piece(position)) {
        Ok(()) => {}
        Err(_) => unreachable!(),
    }
}

fn add_end(owner: &mut BagOwner, count: u64, ends: u64)
    requires room { worker_index owner.old < worker_capacity owner.old }
    requires view { worker_view owner.old ≡ bag_view 64 ends count false [] }
    ensures same { SameWorker owner.old owner.new × (worker_index owner.new ≡ worker_index owner.old + 1) }
    ensures view { worker_view owner.new ≡ bag_view 64 (ends + 1) count false [] }
{
    match owner.push_as::<AddsEnd>(Task::End) {
        Ok(()) => {}
        Err(_) => unreachable!(),
    }
}

/// All pieces, in order.
fn add_pieces(owner: &mut BagOwner, count: u64)
    requires room { (worker_index owner.old ≡ 0) × (count ≤ worker_capacity owner.old) }
    requires view { worker_view owner.old ≡ bag_view 64 0 0 false [] }
    ensures same { SameWorker owner.old owner.new × (worker_index owner.new ≡ count) }
    ensures view { worker_view owner.new ≡ bag_view 64 0 count false [] }
{
    for position in 0..count {
        add_piece(owner, position);
    }
}

/// As many end marks as there are workers.
fn add_ends(owner: &mut BagOwner, count: u64, workers: u64)
    requires room { worker_index owner.old + workers ≤ worker_capacity owner.old }
    requires view { worker_view owner.old ≡ bag_view 64 0 count false [] }
    ensures same { SameDeque owner.old owner.new }
    ensures view { worker_view owner.new ≡ bag_view 64 workers count false [] }
{
    for ends in 0..workers {
        add_end(owner, count, ends);
    }
}

/// The shares that steal, of all workers but the first.
fn add_shares(
    owner: &mut BagOwner,
    table: &Register,
    seat: &mut Seat<(), MarkView>,
    shares: &mut Vec<Share>,
    count: u64,
    workers: u64,
) -> Result<(), AllocError>
    requires workers { (0 < workers) × (workers ≤ 64) }
    requires view { worker_view owner.old ≡ bag_view 64 workers count false [] }
    requires seat { (seat.old.table_id ≡ table.now.shared.table_id) × (table.now.shared.table_id.words ≡ 1)
        × (seat.old.me ≡ (mark_view 64 [] [] [], [])) }
    requires none { shares.old.items ≡ [] }
    ensures same { SameDeque owner.old owner.new }
    ensures view { OnOk result (worker_view owner.new ≡ bag_view (65 - workers) 1 count false []) }
    ensures seat { OnOk result ((seat.new.table_id ≡ table.now.shared.table_id)
        × (seat.new.me ≡ (mark_view (65 - workers) [] [] [], []))) }
    ensures shares { OnOk result (EachShare (IsNew (worker_deque owner.old) count table.now.shared.table_id) shares.new.items
        × (vec_len shares.new + 1 ≡ workers)) }
{
    for _ in 1..workers {
        let pass = owner.another::<OnePart>();
        let theirs = table.shared.split_seat::<OnePart>(seat);
        shares.push(Share {
            access: Access::Steals(pass),
            seat: theirs,
            met: false,
        })?;
    }
    Ok(())
}

/// All shares, the first one in front.
fn put_first(
    owner: BagOwner,
    table: Arc<Register, Global>,
    seat: Seat<(), MarkView>,
    mut others: Vec<Share>,
    count: u64,
    workers: u64,
) -> Result<Vec<Share>, AllocError>
    requires workers { (workers ≤ 64) × (vec_len others + 1 ≡ workers) }
    requires owner { (worker_flavor owner ≡ 0) × (worker_view owner ≡ bag_view (65 - workers) 1 count false []) }
    requires seat { (seat.table_id ≡ (arc_value table).shared.table_id) × ((arc_value table).shared.table_id.words ≡ 1)
        × (seat.me ≡ (mark_view (65 - workers) [] [] [], [])) }
    requires others { EachShare (IsNew (worker_deque owner) count (arc_value table).shared.table_id) others.items }
    ensures crew { IfOk result (λ v. IsCrew (worker_deque owner) count (arc_value table).shared.table_id v.items) }
    ensures fresh { IfOk result (λ v. EachShare IsFresh v.items × (vec_len v ≡ workers)) }
{
    let first = Share {
        access: Access::Pops(owner, table),
        seat,
        met: false,
    };
    others.insert(0, first)?;
    Ok(others)
}

/// A bag with all pieces of the indices below n, a mark that nothing has lowered, and as many empty
/// shares as the plan has workers. It takes the memory of the whole run; `take`, `lower` and `read` take
/// none.
pub fn open(alloc: Global, n: u32, plan: Plan) -> Result<(Bag, Mark, Vec<Share>), AllocError>
    ensures bag { IfOk result (λ o. (o.0.n ≡ n) × (o.0.size ≡ plan.piece)) }
    ensures shares { IfOk result (λ o. vec_len o.2 ≡ plan.workers) }
    ensures crew { IfOk result (λ o. AreSharesOf o.0 o.1 o.2.items) }
    ensures fresh { IfOk result (λ o. EachShare IsFresh o.2.items) }
{
    let count = plan.pieces(n);
    let workers = u64::from(plan.workers());
    let mut owner = BagOwner::fifo_as(alloc, (count + workers) as usize)?;
    add_pieces(&mut owner, count);
    add_ends(&mut owner, count, workers);
    let stealer = owner.stealer()?;
    let (table, mut seat) = Table::of_words(alloc, &[NOTHING], &())?;
    let mut shares = Vec::new(alloc);
    add_shares(&mut owner, &table, &mut seat, &mut shares, count, workers)?;
    let table = Arc::new(alloc, table)?;
    let mark = Mark {
        table: Arc::try_clone(&table)?,
    };
    let shares = put_first(owner, table, seat, shares, count, workers)?;
    let bag = Bag::of(stealer, n, plan.piece());
    Ok((bag, mark, shares))
}
