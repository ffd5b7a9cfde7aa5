//! Sizes that were chosen by measuring. No promise depends on one of them; bench/LAB.md has what was measured.

/// How many runs of operands ordinary bodies have at once. Of this and the other rooms: halved, a worker asks for memory once
/// more; doubled, it holds twice the room from the beginning.
pub(crate) const OPERAND_RUNS: usize = 16;

/// How many runs of locals ordinary bodies have, at most.
pub(crate) const LOCAL_RUNS: usize = 64;

/// How many operands ordinary bodies have at once.
pub(crate) const OPERANDS: usize = 1_024;

/// How many blocks of ordinary bodies are open at once: Go's compiler opens one for each place where a function may go on.
pub(crate) const OPEN_FRAMES: usize = 1_024;

/// A list of more types than this is pushed as a run. Halved, operands of ordinary code become runs, which are slower to take;
/// doubled, calls write twice the operands each.
pub(crate) const SHORT_LIST: usize = 8;

/// Up to this many types are compared one by one, which takes no longer than to ask for them. Halved, ordinary calls ask;
/// doubled, each call may compare twice as many.
pub(crate) const COMPARED_TYPES: usize = 8;

/// How many locals are written out. Halved, more bodies look in the runs; doubled, each body writes more of them.
pub(crate) const EXPANDED: usize = 256;

/// All declared locals are written out once a body has looked past the first of them this often, and once more for each
/// `LOCALS_A_LOOK` locals that it declares: to write them out takes as long as these looks. Halved or doubled, bodies that look
/// seldom, or often, take up to twice the time of the better way.
pub(crate) const LOOKS_PAST_EXPANDED: usize = 16;

/// How many locals are written out in the time of a look past the first of them.
pub(crate) const LOCALS_A_LOOK: usize = 512;
