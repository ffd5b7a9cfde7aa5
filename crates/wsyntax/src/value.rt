//! Values and traps (4.2.1, 4.2.2).
use wnum::NumTrap;

/// A value of an integer type (4.2.1), as the word that stands for it. Values of float types are never met.
#[derive(Clone, Copy, Debug, PartialEq, Eq)]
pub enum Value {
    I32(u32),
    I64(u64),
}

/// Why an execution was aborted (4.2.2), by the name that is printed.
#[derive(Clone, Copy, Debug, PartialEq, Eq)]
pub enum Trap {
    /// `unreachable` was executed.
    Unreachable,
    /// A memory access reached past the end.
    OutOfBounds,
    /// `call_indirect` named no entry of the table.
    UndefinedElement,
    /// `call_indirect` named an entry that was never set.
    UninitializedElement,
    /// `call_indirect` named a function of another type.
    TypeMismatch,
    /// An integer operator has no result.
    ByOperator(NumTrap),
}
