use crate::value::{Trap, Value};

/// How a call that was run came to its end (4.2.2, 4.5.5).
#[derive(Debug, Drop, PartialEq, Eq)]
pub enum Outcome {
    /// Its results, the lowest first.
    Values(Vec<Value>),
    Trapped(Trap),
    /// A charge was due and no fuel was left.
    OutOfFuel,
    /// A function was to be entered and no frame was left.
    OutOfFrames,
}
