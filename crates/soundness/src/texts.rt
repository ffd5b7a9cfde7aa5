//! A text of calls has one reading, a call one end, and so the answer is one.

ghost use Rattle.soundness.specs.OneAnswer.{OneAnswer, OneCalls, OneEndOf};

/// A text of calls is one thing: too long, bad from one line on, or these calls.
pub fn one_calls()
    ensures { OneCalls }
{}

/// A call ends in one way.
pub fn one_end_of()
    ensures { OneEndOf }
{}

/// The same bytes, text and limits have one answer, where the same calls ran out of memory.
pub fn one_answer()
    ensures { OneAnswer }
{}
