//! A worker with what it works with.

use crate::job::JobFault;
use crate::share::Share;
use crossbeam_utils::CachePadded;

/// One worker with its share, its local and its answers. It is `short` where memory for an answer was
/// refused. The answers of two workers share no cache line.
#[derive(Drop)]
pub struct Member<L, O, F> {
    pub(crate) share: Share,
    pub(crate) local: L,
    pub(crate) answers: CachePadded<Vec<(u32, Result<O, JobFault<F>>)>>,
    pub(crate) short: bool,
}
