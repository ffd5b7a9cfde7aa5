//! The steps of which a pool's history is made, and what a ticket knows of it. These are for the proofs: no value
//! of them is made.

use std::collections::LinkedList;

/// One step on a pool, with the number of bytes of its memory: it was put after those that the pool keeps, or the first of
/// those was taken.
#[derive(Clone, Copy, Drop)]
pub enum PoolStep {
    Gave(usize),
    Lent(usize),
}

/// A step, and the index of the ticket that made it.
#[derive(Clone, Copy, Drop)]
pub struct PoolEntry {
    pub ticket: u64,
    pub step: PoolStep,
}

/// What a ticket knows: its index, whether it is the one of the greatest index, the history that it has `seen` so
/// far, and the steps that it `made`.
pub struct TicketView {
    pub ticket: u64,
    pub newest: bool,
    pub seen: LinkedList<PoolEntry>,
    pub made: LinkedList<PoolStep>,
}
