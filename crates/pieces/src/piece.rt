//! Some consecutive indices.
ghost use Rattle.std.specs.Prelude.{◌≡◌, ◌<◌};
ghost use Rattle.pieces.specs.Cuts.{pieces, first_of, end_of};

/// The indices from `first` up to `end`, which is left out.
#[derive(Clone, Copy, PartialEq, Eq, Drop)]
pub struct Piece {
    pub first: u32,
    pub end: u32,
}

/// The piece at this position, where the indices below n are cut into pieces of this size.
pub(crate) fn piece_at(n: u32, size: u32, position: u64) -> Piece
    requires size { 0 < size }
    requires position { position < pieces n size }
    ensures first { result.first ≡ first_of size position }
    ensures end { result.end ≡ end_of n size position }
{
    let first = position * u64::from(size);
    let end = (first + u64::from(size)).min(u64::from(n));
    Piece {
        first: first as u32,
        end: end as u32,
    }
}
