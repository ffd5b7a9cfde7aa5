//! The calls of a batch in groups.

ghost use Rattle.std.specs.Prelude.{◌<◌, ◌≤◌, ◌+◌, ◌^◌, IfOk, OnOk, length};
ghost use Rattle.batch_text.specs.Slices.{joined_calls};
ghost use Rattle.batch.specs.Groups.{AreGroups, AddsGroups};

use crate::group::Group;
use crate::runner::Runner;
use batch_text::{Call, Part};
use memory::{Pool, Ticket};
use pieces::{Job, JobFault, Stage, Watch};
use std::alloc::{AllocError, Global};
use std::sync::Wait;

/// Pushes `calls`, of which the first has index `first`, in groups of `size`. The last may have fewer.
fn push_groups<'s, 't>(
    groups: &mut Vec<Group<'s, 't>>,
    calls: &'s [Call<'t>],
    first: u32,
    size: usize,
) -> Result<(), AllocError>
    requires few { first + length calls.now < 2 ^ 32 }
    requires some { 0 < size }
    ensures { OnOk result (AddsGroups first calls.now groups.old.items groups.new.items) }
{
    let mut from = 0;
    'groups: while from < calls.len() {
        let to = from + size.min(calls.len() - from);
        groups.push(Group {
            calls: &calls[from..to],
            first: first + from as u32,
        })?;
        from = to;
    }
    Ok(())
}

/// The calls of all slices of a text in groups of `size`. The last of a slice may have fewer.
pub(crate) fn groups_of<'s, 't>(
    alloc: Global,
    slices: &'s [Vec<Call<'t>>],
    size: usize,
) -> Result<Vec<Group<'s, 't>>, AllocError>
    requires few { length (joined_calls slices.now) < 2 ^ 32 }
    requires some { 0 < size }
    ensures groups { IfOk result (λ groups. AreGroups 0 (joined_calls slices.now) groups.items) }
    ensures few { IfOk result (λ groups. length groups.items ≤ length (joined_calls slices.now)) }
{
    let mut groups = Vec::new(alloc);
    let mut first = 0;
    for calls in slices {
        push_groups(&mut groups, calls, first, size)?;
        first += calls.len() as u32;
    }
    Ok(groups)
}

/// The calls of a batch in groups of consecutive ones. One index of the job is one group, and its result the part of the
/// report that has its lines. The calls of a group have one memory in turn, which is lent once,
/// where the module has a memory.
#[derive(Drop)]
pub(crate) struct GroupedCalls<'a, 's, 't, 'w, W> {
    pub(crate) runner: Runner<'a>,
    pub(crate) pool: &'a Pool,
    pub(crate) groups: &'s [Group<'s, 't>],
    pub(crate) watch: &'w W,
}

impl<'a, 's, 't, 'w, W: Watch> Job for GroupedCalls<'a, 's, 't, 'w, W> {
    type Local = Ticket;

    type Out = Part;

    type Fault = ();

    ghost use Rattle.memory.specs.Pools.{IsTicketOf};
    ghost use Rattle.batch.specs.Groups.{GivesPartAt};

    ghost limit = { λ j. length j.groups.now };

    ghost belongs = { λ j t. IsTicketOf j.pool.now t };

    ghost passes = { λ j g. Unit {0} };

    ghost gives = { λ j g part. GivesPartAt j.runner.accepted.now j.runner.settings j.groups.now g part };

    ghost refuses = { λ j g f. ⊥ };

    fn run<R: Wait>(&self, rt: &R, ticket: &mut Ticket, index: u32) -> Result<Part, JobFault<()>> {
        let group = &self.groups[index as usize];
        let Ok(mut lines) = Vec::with_capacity(self.runner.alloc, group.calls.len()) else {
            return Err(JobFault::Memory);
        };
        let mut clean = self.runner.lend(rt, self.pool, ticket);
        for (position, call) in group.calls.iter().enumerate() {
            let call_index = group.first + position as u32;
            self.watch.note(Stage::Call, call_index);
            let line = match self.runner.callee(call) {
                Ok(function) => {
                    self.watch.lent(call_index, clean.len());
                    let (line, back) = self.runner.line(call, function, clean);
                    clean = back;
                    line
                }
                Err(line) => line,
            };
            if lines.push(line).is_err() {
                return Err(JobFault::Memory);
            }
        }
        self.runner.give_back(rt, self.pool, ticket, clean);
        let Ok(part) = Part::of(self.runner.alloc, group.first as usize, &lines) else {
            return Err(JobFault::Memory);
        };
        Ok(part)
    }

    ghost never_both = { λ j g f p r. r };

    ghost one_fault = { λ j g f h r s. absurd r };
}
