//! Who looks on while jobs run.

/// What a job is about to run.
#[derive(Clone, Copy, PartialEq, Eq, Drop)]
pub enum Stage {
    /// One of the bodies that are judged.
    Body,
    /// One of the calls that are answered.
    Call,
}

/// One that looks on from all threads while jobs run. It answers nothing, so no answer depends on it. A
/// test waits in `note` for another index, to see that two run at once.
pub trait Watch: Sync {
    /// The index of this stage is about to run.
    fn note(&self, stage: Stage, index: u32);

    /// The call was lent a memory of `bytes` bytes.
    fn lent(&self, call: u32, bytes: usize);
}

/// The watch that does nothing.
#[derive(Clone, Copy, Drop)]
pub struct Quiet;

impl Watch for Quiet {
    fn note(&self, _stage: Stage, _index: u32) {}

    fn lent(&self, _call: u32, _bytes: usize) {}
}
