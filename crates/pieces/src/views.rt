//! What a share knows of the deque and of the mark. These are for the proofs: no value of them is made.

use crate::history::MarkCall;
use std::collections::LinkedList;

/// What a share's pass knows of the deque. Of 64 `parts` each pass has some, and one that has them all
/// knows the whole. It may take `owed` more end marks, `made` pieces were put in, it has `met` an end
/// mark or not, and it took the pieces at the positions `taken`.
pub struct BagView {
    pub parts: u64,
    pub owed: u64,
    pub made: u64,
    pub met: bool,
    pub taken: LinkedList<u64>,
}

/// What a share's seat knows of the mark. Of 64 `parts` each seat has some, and one that has them all
/// knows the whole history. It has `seen` the history so far, and so far did the `others` whose seats
/// it took in; the calls `made` are its own.
pub struct MarkView {
    pub parts: u64,
    pub seen: LinkedList<MarkCall>,
    pub others: LinkedList<LinkedList<MarkCall>>,
    pub made: LinkedList<MarkCall>,
}
