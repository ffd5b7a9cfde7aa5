//! How many bodies workers judge in one go, and how many workers do.
ghost use Rattle.std.specs.Prelude.{◌≡◌, ◌+◌, ◌*◌, ◌-◌, ◌/◌, ◌<◌, ◌≤◌, min, max};
ghost use Rattle.std.specs.Int.{div_ceil};
ghost use Rattle.verdict.specs.declared.tuning.TheConstants.{SHORTEST_GROUP};

use crate::tuning::{FEWEST_GROUPS, SHORTEST_GROUP};
use pieces::Plan;

/// The plan with `most` workers where it has more, but with one at least.
fn narrowed(plan: Plan, most: usize) -> Plan
    ensures { result.workers ≤ max 1 most }
{
    let workers = most.max(1).min(plan.workers() as usize) as u32;
    match Plan::new(workers, plan.piece()) {
        Some(fewer) => fewer,
        None => unreachable!(),
    }
}

/// The plan whose pieces are the groups of `bodies` bodies in a module of `bytes` bytes.
fn grouping(plan: Plan, bodies: u32, bytes: usize) -> Plan
    ensures { result.workers ≡ plan.workers }
{
    let wanted = plan.workers().saturating_mul(FEWEST_GROUPS) as usize;
    plan.grouping(bodies, wanted.min(bytes / SHORTEST_GROUP) as u32)
}

/// The size of the groups of `bodies` bodies in a module of `bytes` bytes, and the plan of those who judge one group after
/// the other. To start a thread for less than `SHORTEST_GROUP` bytes, or for no second group, takes longer.
pub(crate) fn groups_for(bodies: u32, bytes: usize, plan: Plan) -> (u32, Plan)
    ensures sized { 0 < result.0 }
    ensures few { result.1.workers ≤ max 1 (bytes / SHORTEST_GROUP) }
{
    let plan = grouping(narrowed(plan, bytes / SHORTEST_GROUP), bodies, bytes);
    let each = plan.one_group_each();
    if plan.count_groups(bodies) < 2 {
        return (plan.piece(), narrowed(each, 1));
    }
    (plan.piece(), each)
}

/// The positions of the bodies of a group, of `bodies` in all: the first, and that after the last.
pub(crate) fn positions_of(group: u32, size: u32, bodies: u32) -> (u32, u32)
    requires sized { 0 < size }
    requires there { group < div_ceil bodies size }
    ensures from { result.0 ≡ group * size }
    ensures to { result.1 ≡ group * size + min size (bodies - group * size) }
{
    let from = group * size;
    let left = bodies - from;
    (from, from + size.min(left))
}
