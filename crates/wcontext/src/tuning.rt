//! Sizes that were chosen by measuring. No promise depends on one of them; bench/LAB.md has what was measured.

/// A list of at least this many types is long. To compare shorter ones takes no longer than to look them up. Halved, more lists
/// enter the tree; doubled, lists of up to twice the types are compared each time that they are asked for.
pub(crate) const LONG: usize = 256;

/// Each byte of a body can have a list compared once. A list is left out of the tree where that compares at most this many
/// types for each type of all long lists, since to put a type into the tree takes longer. Halved, the tree is made for less
/// code; doubled, bodies may compare twice as much before it is.
pub(crate) const COMPARED: usize = 128;

/// How many types of each list are read at once: those of one list and their prefixes lie together. Halved, each page is touched
/// twice as often; doubled, the types that are read ahead leave the cache.
// PERF: each step takes a type of the next list, and the lists lie on pages of their own, which no cache holds together.
pub(crate) const WIDTH: usize = 16;
