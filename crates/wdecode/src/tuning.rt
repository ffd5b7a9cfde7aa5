//! Sizes that were chosen by measuring. No promise depends on one of them; bench/LAB.md has what was measured.

/// How many open blocks need no memory of their own. Halved, more bodies ask for memory for them; doubled, each reader clears
/// more.
// PERF: this stack is made anew for each body, and most bodies are not that deep.
pub const FEW_BLOCKS: usize = 16;

/// For how many tokens there is room at first; for one a byte where fewer bytes are left. Halved, most bodies are moved once more
/// while they grow; doubled, short bodies hold twice the memory until they are cut to size.
pub(crate) const FEW_TOKENS: usize = 32;
