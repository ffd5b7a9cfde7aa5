//! The pool of clean memories, which threads share.

use crate::clean::CleanMem;
use crate::history::TicketView;
use crossbeam_queue::protocol::{Lesson, Outcome, Protocol, Split};
use crossbeam_queue::{Pass, RuledArrayQueue};
use std::alloc::{AllocError, Global};
use std::sync::Wait;

/// The queue is a queue: there is one legal history of all steps, and it leaves what the queue holds.
pub struct PoolProtocol;

impl Protocol<CleanMem, TicketView> for PoolProtocol {
    ghost use Rattle.std.specs.Prelude.{true, []};
    ghost use Rattle.memory.specs.PoolHistory.{IsInOrder, ticket_view};

    ghost holds = { IsInOrder };

    ghost first = { ticket_view 0 true [] [] };
}

struct Gives;

impl Outcome<CleanMem, TicketView> for Gives {
    ghost use Rattle.memory.specs.PoolHistory.{Extends};
    ghost use Rattle.memory.specs.declared.history.PoolStep.TheVariants.{Gave};

    ghost then = { λ v n w. Extends v (Gave n) w };
}

impl Lesson<CleanMem, TicketView> for Gives {
    ghost use Rattle.memory.specs.PoolHistory.{Finds};

    ghost fact = { Finds };
}

struct Lends;

impl Outcome<CleanMem, TicketView> for Lends {
    ghost use Rattle.memory.specs.PoolHistory.{Extends};
    ghost use Rattle.memory.specs.declared.history.PoolStep.TheVariants.{Lent};

    ghost then = { λ v n w. Extends v (Lent n) w };
}

impl Lesson<CleanMem, TicketView> for Lends {
    ghost use Rattle.memory.specs.PoolHistory.{Finds};

    ghost fact = { Finds };
}

/// The newest ticket makes the next.
struct Issue;

impl Split<TicketView> for Issue {
    ghost use Rattle.std.specs.Prelude.{true, false, [], ◌+◌};
    ghost use Rattle.memory.specs.PoolHistory.{ticket_view};

    ghost left = { λ v. ticket_view v.ticket false v.seen v.made };

    ghost right = { λ v. ticket_view (v.ticket + 1) true [] [] };
}

/// Clean memories between two instances. It keeps as many as its capacity, and lends them in the order in which
/// they were given.
#[derive(Drop)]
pub struct Pool {
    pub(crate) queue: RuledArrayQueue<CleanMem, TicketView, PoolProtocol>,
    alloc: Global,
}

/// The right of one thread to use a pool. It takes no room.
#[derive(Drop)]
pub struct Ticket {
    pub(crate) pass: Pass<CleanMem, TicketView>,
}

impl Pool {
    ghost use Rattle.std.specs.Prelude.{◌≡◌, ◌<◌, ◌≤◌, ◌⊎◌, true, [], IfOk, vec_len};
    ghost use Rattle.crossbeam_queue.specs.Fifo.{Held};
    ghost use Rattle.crossbeam_queue.specs.Passes.{view, IsPassOf};
    ghost use Rattle.memory.specs.PoolHistory.{ticket_view, Finds};
    ghost use Rattle.memory.specs.Pools.{IsTicketOf, AreIssued, capacity_of, view_of, AddsEmpty, DropsFirst, LendsFrom, GivesTo};

    /// An empty pool that keeps at most `capacity` memories, and as many tickets. It takes the memory of all its
    /// calls.
    pub fn new(alloc: Global, capacity: u32) -> Result<(Pool, Vec<Ticket>), AllocError>
        requires { (0 < capacity) × (capacity ≤ 64) }
        ensures capacity { IfOk result (λ p. capacity_of p.0 ≡ capacity) }
        ensures issued { IfOk result (λ p. AreIssued p.0 p.1.items) }
        ensures count { IfOk result (λ p. vec_len p.1 ≡ capacity) }
    {
        let (queue, first) = RuledArrayQueue::ruled(alloc, capacity as usize)?;
        let pool = Pool { queue, alloc };
        let tickets = pool.issue(first, capacity)?;
        Ok((pool, tickets))
    }

    /// As many tickets as there are to be, in the order of their indices. The newest one makes the next.
    fn issue(
        &self,
        first: Pass<CleanMem, TicketView>,
        count: u32,
    ) -> Result<Vec<Ticket>, AllocError>
        requires count { 0 < count }
        requires first { IsPassOf self.now.queue first × (view first ≡ ticket_view 0 true [] []) }
        ensures issued { IfOk result (λ ts. AreIssued self.now ts.items) }
        ensures count { IfOk result (λ ts. vec_len ts ≡ count) }
    {
        let mut tickets = Vec::new(self.alloc);
        let mut newest = first;
        for _ in 1..count {
            let next = self.queue.another::<Issue>(&mut newest);
            tickets.push(Ticket { pass: newest })?;
            newest = next;
        }
        tickets.push(Ticket { pass: newest })?;
        Ok(tickets)
    }

    /// The first of the memories that the pool keeps. Where it finds the pool empty it puts an empty memory in, and
    /// takes the first. It takes no memory; it may wait for another thread, and what it promises holds if it returns.
    ///
    /// Its contract tells for any number of tickets that what it gives is the first. How many empty memories it puts in
    /// the contract tells for a pool of one ticket: one where the pool kept none, else none.
    pub fn lend<R: Wait>(&self, rt: &R, ticket: &mut Ticket) -> CleanMem
        requires { IsTicketOf self.now ticket.old }
        ensures ticket { IsTicketOf self.now ticket.new }
        ensures lent { LendsFrom (view_of ticket.old) result (view_of ticket.new) }
    {
        for _ in rt.forever() {
            match self.queue.pop_as::<Lends, R>(rt, &mut ticket.pass) {
                Some(memory) => return memory,
                None => self.add_empty(rt, ticket),
            }
        }
        unreachable!()
    }

    /// An empty memory for a pool that was found empty, unless others have filled it.
    fn add_empty<R: Wait>(&self, rt: &R, ticket: &mut Ticket)
        requires ticket { IsTicketOf self.now ticket.old }
        requires found { Held 0 (Finds (view_of ticket.old)) }
        ensures ticket { IsTicketOf self.now ticket.new }
        ensures added { (view_of ticket.new ≡ view_of ticket.old) ⊎ AddsEmpty (view_of ticket.old) (view_of ticket.new) }
    {
        let empty = CleanMem::empty(self.alloc);
        let _ = self.queue.push_as::<Gives, R>(rt, &mut ticket.pass, empty);
    }

    /// Keeps a memory after the others. Where it finds the pool full it drops the first that is kept, and tries again.
    /// It takes no memory; it may wait for another thread, and what it promises holds if it returns.
    ///
    /// Its contract tells for any number of tickets that the memory is kept. How many others it drops the contract tells
    /// for a pool of one ticket: one where the pool was full, else none.
    ///
    /// A memory that was given is gone: `pool.give(rt, ticket, memory); memory.len()` does not compile.
    pub fn give<R: Wait>(&self, rt: &R, ticket: &mut Ticket, mut memory: CleanMem)
        requires { IsTicketOf self.now ticket.old }
        ensures ticket { IsTicketOf self.now ticket.new }
        ensures given { GivesTo (capacity_of self.now) (view_of ticket.old) memory (view_of ticket.new) }
    {
        for _ in rt.forever() {
            match self.queue.push_as::<Gives, R>(rt, &mut ticket.pass, memory) {
                Ok(()) => return,
                Err(back) => memory = back,
            }
            self.drop_first(rt, ticket);
        }
        unreachable!()
    }

    /// Drops the first memory of a pool that was found full, unless others have emptied it.
    fn drop_first<R: Wait>(&self, rt: &R, ticket: &mut Ticket)
        requires ticket { IsTicketOf self.now ticket.old }
        requires found { Held (capacity_of self.now) (Finds (view_of ticket.old)) }
        ensures ticket { IsTicketOf self.now ticket.new }
        ensures dropped { (view_of ticket.new ≡ view_of ticket.old)
            ⊎ DropsFirst (capacity_of self.now) (view_of ticket.old) (view_of ticket.new) }
    {
        let _ = self.queue.pop_as::<Lends, R>(rt, &mut ticket.pass);
    }
}
