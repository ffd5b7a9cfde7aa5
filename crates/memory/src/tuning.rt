//! Sizes that were chosen by measuring. No promise depends on one of them; bench/LAB.md has what was measured.

/// The number of bytes of a block. Halved, cleaning looks at twice the marks; doubled, it clears up to twice the bytes for each
/// write that stands alone.
// PERF: with marks of blocks, cleaning costs what was written, and not all between two far writes (bench/LAB.md, Instances and memory).
pub(crate) const BLOCK: usize = 4_096;
