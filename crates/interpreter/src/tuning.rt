//! Sizes that were chosen by measuring. No promise depends on one of them; bench/LAB.md has what was measured.

/// The number of slots for which a call asks for memory at first, at least. Halved, small calls ask once more at their first
/// entry; doubled, each call asks for and clears more.
// PERF: to ask once more was half of what the first entry of a small call took (bench/LAB.md, The interpreter: room for 64 slots).
pub(crate) const FEWEST_SLOTS: usize = 64;
