//! What lies in the deque.

/// The position of a piece, or an end mark. Behind the pieces lies one end mark for each share.
#[derive(Clone, Copy, Drop)]
pub enum Task {
    Piece(u64),
    End,
}
