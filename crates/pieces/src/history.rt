//! The calls of which the mark's history is made.

/// One call on the mark: it lowered an index, or it read this answer.
#[derive(Clone, Copy, Drop)]
pub enum MarkCall {
    Lowered(u32),
    Found(Option<u32>),
}
