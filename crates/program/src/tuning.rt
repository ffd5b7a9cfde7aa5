//! Sizes that were chosen by measuring. No promise depends on one of them; bench/LAB.md has what was measured.

/// How many bytes of files a round reads before it ends: it holds these and one module more. Halved, workers wait for the
/// slowest of a round twice as often; doubled, a round holds twice the memory.
pub(crate) const ROUND_BYTES: usize = 67_108_864;

/// How many files a round has, at most. Halved, small files make twice the rounds; doubled, a round keeps twice the names and
/// reasons.
pub(crate) const ROUND_FILES: usize = 4_096;

/// A module of this number of bytes or more is judged by all workers, body by body, so that none is waited for long. Halved, the
/// workers wait for one another at more modules; doubled, the last one may work twice as long alone.
pub(crate) const LARGE: usize = 1_048_576;
