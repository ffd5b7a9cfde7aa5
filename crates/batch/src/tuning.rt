//! Sizes that were chosen by measuring. No promise depends on one of them; bench/LAB.md has what was measured.

/// One thread reads a text of fewer bytes before others have started. Halved, workers are woken for texts that are read before
/// they look; doubled, texts are read alone that two would read sooner.
pub(crate) const SHORT_TEXT: usize = 65_536;

/// How many slices there are for each worker, so that one that comes late is not waited for long. Halved,
/// the last worker may read twice as long alone; doubled, each slice costs its share of the joining.
pub(crate) const SLICES_EACH: usize = 4;

/// How many groups there are for each worker at least, where there are as many calls: few long calls are shared too.
/// Halved, the last worker may run twice as many calls alone; doubled, workers meet twice as often at the queue.
pub(crate) const FEWEST_GROUPS: u32 = 16;

/// The most calls of a round of a stream. Halved, the workers join twice as often; doubled, a round holds twice the answers.
pub(crate) const LONGEST_ROUND: usize = 16_384;

/// The fuel of a round of a stream after which the next one is shorter. Halved, slow calls are written sooner and the workers
/// join more often; doubled, they are waited for longer.
pub(crate) const MUCH_FUEL: u128 = 4_194_304;

/// How many bytes of a stream are read at once, at most. Halved, a fast stream asks the system twice as often; doubled, it holds
/// twice the room.
pub(crate) const PIECE: usize = 262_144;
