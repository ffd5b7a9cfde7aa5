//! Sizes that were chosen by measuring. No promise depends on one of them; bench/LAB.md has what was measured.

/// How many groups there are for each worker, at most, so that one that comes late is not waited for long. Halved, the last
/// worker may work twice as long alone; doubled, workers meet twice as often at the queue.
pub(crate) const MOST_GROUPS: u32 = 64;

/// For how many answers each worker has room from the beginning, at most: threads that ask for memory at once wait for one
/// another. Halved, more of them do; doubled, each worker holds more room that it may never fill.
pub(crate) const FEW_ANSWERS: u32 = 256;
