//! Sizes that were chosen by measuring. No promise depends on one of them; bench/LAB.md has what was measured.

/// How many runs of locals ordinary bodies have, at most.
pub(crate) const LOCAL_RUNS: usize = 64;

/// How many labels the branch tables of ordinary bodies have.
pub(crate) const LABELS: usize = 2_048;

/// How many exports ordinary modules have, at most.
pub(crate) const EXPORTS: usize = 4_096;

/// Fewer bytes than this are worth neither a group nor a worker of their own.
pub(crate) const SHORTEST_GROUP: usize = 4_096;

/// How many groups there are for each worker at least, where they are long enough.
pub(crate) const FEWEST_GROUPS: u32 = 32;
