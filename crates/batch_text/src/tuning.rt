//! Sizes that were chosen by measuring. No promise depends on one of them; bench/LAB.md has what was measured.

/// The room in bytes that is made at once for the line of a total. Such a line has fewer. Halved, a total of many calls grows its
/// text once; doubled, each report asks for a little more.
pub(crate) const LAST_LINE: usize = 160;

/// The bytes of most lines, for which room is made at once. Halved, a report is moved once more while it grows; doubled, it holds
/// twice the memory until it is written.
pub(crate) const USUAL_LINE: usize = 32;
