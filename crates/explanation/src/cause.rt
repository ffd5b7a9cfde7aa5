//! The ways to be ill typed.

use crate::explanation::FunctionSignature;
use wsyntax::ValType;

/// A space of indices (2.5.1).
#[derive(Clone, Copy, PartialEq, Eq)]
pub enum Space {
    Types,
    Functions,
    Globals,
    Locals,
    Labels,
}

/// Why a token is ill typed. A position is that of an operand, from 0 on top.
#[derive(Drop)]
pub enum Cause {
    /// It takes an operand of one type, and finds one of another.
    Operand {
        position: usize,
        wanted: ValType,
        found: ValType,
    },
    /// It takes an operand, of any type where `wanted` is `None`, and the innermost block has fewer.
    Missing {
        position: usize,
        wanted: Option<ValType>,
    },
    /// Operands are left where a block ends: this number of them.
    LeftOver {
        count: usize,
    },
    /// An if of that type needs an else.
    NoElse(FunctionSignature),
    /// It names an index, and there are fewer.
    NoIndex {
        space: Space,
        index: u32,
        count: usize,
    },
    /// It sets a global that is immutable.
    Immutable {
        global: u32,
    },
    /// It uses the memory, and there is none.
    NoMemory,
    /// It uses the table, and there is none.
    NoTable,
    /// Its alignment is larger than its width, both as exponents of 2.
    Alignment {
        align: u32,
        largest: u32,
    },
    /// A label of a branch table takes other types than its default.
    Labels {
        label: u32,
        takes: Vec<ValType>,
        others: Vec<ValType>,
    },
    /// The two operands of a select are of different types.
    Select {
        above: ValType,
        below: ValType,
    },
}
