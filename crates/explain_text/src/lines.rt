//! The lines of an explanation below that of the verdict, in three parts that are written side by side.

use std::alloc::Global;

/// The lines below that of the verdict, in the order in which they stand.
#[derive(Drop)]
pub(crate) struct Lines {
    /// What is wrong.
    pub(crate) because: String,
    /// Where.
    pub(crate) place: String,
    /// What to do.
    pub(crate) hint: String,
}

impl Lines {
    /// None yet.
    pub(crate) fn new(alloc: Global) -> Self {
        Lines {
            because: String::new(alloc),
            place: String::new(alloc),
            hint: String::new(alloc),
        }
    }
}
