//! How many workers there are, and how the indices are cut.
ghost use Rattle.std.specs.Prelude.{◌≡◌, ◌≤◌, IfNone, IfSome};
ghost use Rattle.std.specs.Int.{div_ceil};
ghost use Rattle.pieces.specs.Cuts.{InRange, pieces};

use crate::tuning::MOST_GROUPS;

/// A number of workers from 1 to 64, and a size of pieces from 1 to 65,535. No answer of `gather` or
/// `try_all` depends on it, as far as their contracts say.
#[derive(Clone, Copy, Drop)]
pub struct Plan {
    workers: u32,
    piece: u32,
    ghost in_range: { InRange workers piece },
}

/// The greatest number of workers.
const MOST_WORKERS: u32 = 64;

/// The greatest size of a piece.
const LONGEST_PIECE: u32 = 65_535;

impl Plan {
    /// `None` exactly where there are no workers or more than 64, or where a piece is empty or longer than
    /// 65,535 indices.
    pub fn new(workers: u32, piece: u32) -> Option<Plan>
        ensures some { IfSome result (λ p. (p.workers ≡ workers) × (p.piece ≡ piece)) }
        ensures none { IfNone result (InRange workers piece → ⊥) }
    {
        if workers == 0 || workers > MOST_WORKERS || piece == 0 || piece > LONGEST_PIECE {
            return None;
        }
        Some(Plan { workers, piece })
    }

    /// How many workers there are.
    pub fn workers(&self) -> u32
        ensures { result ≡ self.now.workers }
    {
        self.workers
    }

    /// How many indices a piece has. The last piece may be shorter.
    pub fn piece(&self) -> u32
        ensures { result ≡ self.now.piece }
    {
        self.piece
    }

    /// The plan of as many workers whose pieces are the groups of `things` things: shorter than those of this plan where
    /// these would make fewer groups than are wanted, and longer where they would make more than 64 for each worker.
    pub fn grouping(&self, things: u32, wanted: u32) -> Plan
        ensures { result.workers ≡ self.now.workers }
    {
        let longer = self.piece.max(things / (self.workers * MOST_GROUPS));
        let piece = longer.min(things / wanted.max(1)).clamp(1, LONGEST_PIECE);
        Plan {
            workers: self.workers,
            piece,
        }
    }

    /// How many groups `things` things make, where a group has as many as a piece. The last group may have fewer.
    pub fn count_groups(&self, things: u32) -> u32
        ensures { result ≡ div_ceil things self.now.piece }
    {
        things.div_ceil(self.piece)
    }

    /// The plan of as many workers that takes one group at once.
    pub fn one_group_each(&self) -> Plan
        ensures workers { result.workers ≡ self.now.workers }
        ensures piece { result.piece ≡ 1 }
    {
        Plan {
            workers: self.workers,
            piece: 1,
        }
    }

    /// The same plan with no more workers than the indices below n have pieces, and one at least.
    pub(crate) fn narrowed(&self, n: u32) -> Plan
        ensures workers { result.workers ≤ self.now.workers }
        ensures piece { result.piece ≡ self.now.piece }
    {
        let most = self.pieces(n).max(1);
        Plan {
            workers: most.min(u64::from(self.workers)) as u32,
            piece: self.piece,
        }
    }

    /// How many pieces the indices below n make.
    pub(crate) fn pieces(&self, n: u32) -> u64
        ensures { result ≡ pieces n self.now.piece }
    {
        (u64::from(n) + u64::from(self.piece) - 1) / u64::from(self.piece)
    }
}
