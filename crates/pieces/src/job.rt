//! What workers run at each index, and what a proof knows of it.
ghost use Rattle.std.specs.Prelude.{◌≡◌, ◌<◌, ℕ, MatchResult};
ghost use Rattle.pieces.specs.Faults.{AllowsFault};

use std::fmt::{Debug, Display};
use std::sync::Wait;
use thiserror::Error;

/// Why a job gave no result at an index.
#[derive(Clone, Copy, Debug, PartialEq, Eq, Drop, Error)]
#[error_bound(F: Debug + Display)]
pub enum JobFault<F> {
    /// The index is refused, with this fault.
    #[error("refused: {0}")]
    Refused(F),
    /// Memory was refused. It may come at every index.
    #[error("out of memory")]
    Memory,
}

/// A job that threads share. Its meaning, which proofs alone see, says of each index below `limit`
/// whether it passes or is refused, with which fault it is refused, and which results it may give.
pub trait Job {
    /// What one worker keeps from index to index, as its scratch memory.
    type Local: Send + Drop;

    /// What an index that passes gives.
    type Out: Send + Drop;

    /// Why an index is refused.
    type Fault: Send + Drop;

    /// The job may be run at the indices below this number.
    ghost limit: { Self → ℕ };

    /// The local is one of this job's.
    ghost belongs: { Self → Self.Local → Type 0 };

    /// The index passes.
    ghost passes: { Self → ℕ → Type 0 };

    /// The index may give this result, where it passes.
    ghost gives: { Self → ℕ → Self.Out → Type 0 };

    /// The index is refused with this fault.
    ghost refuses: { Self → ℕ → Self.Fault → Type 0 };

    /// Runs the job at one index, with the local of the worker that runs it. How often it is called for an
    /// index no contract says.
    fn run<R: Wait>(
        &self,
        rt: &R,
        local: &mut Self::Local,
        index: u32,
    ) -> Result<Self::Out, JobFault<Self::Fault>>
        requires index { index < limit self.now }
        requires local { belongs self.now local.old }
        ensures local { belongs self.now local.new }
        ensures answer { MatchResult result
            (λ out. passes self.now index × gives self.now index out)
            (AllowsFault (refuses self.now index)) };

    /// No index both passes and is refused.
    ghost never_both: { (j : Self) (i : ℕ) (f : Self.Fault) → passes j i → refuses j i f → ⊥ };

    /// No index is refused with two faults.
    ghost one_fault: { (j : Self) (i : ℕ) (f g : Self.Fault) → refuses j i f → refuses j i g → f ≡ g };
}
