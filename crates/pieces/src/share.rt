//! What one worker has of a bag and a mark.

use crate::bag::BagProtocol;
use crate::mark::Register;
use crate::task::Task;
use crate::views::{BagView, MarkView};
use atomic_table::Seat;
use crossbeam_deque::{Pass, Stealer, Worker};
use std::alloc::Global;
use std::sync::Arc;

pub type BagOwner = Worker<Task, Global, BagView, BagProtocol>;

pub type BagStealer = Stealer<Task, Global, BagView, BagProtocol>;

pub type BagPass = Pass<Task, BagView>;

/// How a share takes from the deque. The first share of an `open` owns it and pops, and keeps the
/// mark's word for `settle`; the others steal.
#[derive(Drop)]
pub enum Access {
    Pops(BagOwner, Arc<Register, Global>),
    Steals(BagPass),
}

/// One worker's share of a bag and a mark. It goes from thread to thread whole, and remembers that it
/// has met the end of the bag.
#[derive(Drop)]
pub struct Share {
    pub(crate) access: Access,
    pub(crate) seat: Seat<(), MarkView>,
    pub(crate) met: bool,
}
