//! An item of a module that breaks a module rule, and what is wrong with it.

use crate::explanation::FunctionSignature;
use crate::shell_location::InitialValue;
use wsyntax::{ExportKind, GlobalType, Limits, ValType};

/// The expression of a first value or of an offset.
#[derive(Clone, Copy)]
pub enum Initial {
    /// One constant of that type.
    Constant(ValType),
    /// One `global.get`, with the number of imported globals; of an imported one its type.
    Get {
        global: u32,
        imported: usize,
        gets: Option<GlobalType>,
    },
    /// Any other.
    Other,
}

/// What is wrong with an item, a rule after the other. Imported items count first in the indices of functions, tables, memories
/// and globals.
#[derive(Drop)]
pub enum ItemFault<'a> {
    /// The type of that imported function does not exist: there are this number of types.
    ImportedType {
        func: usize,
        type_index: u32,
        types: usize,
    },
    /// The type of that defined function does not exist: there are this number of types.
    DefinedType {
        func: usize,
        type_index: u32,
        types: usize,
    },
    /// The limits of that table are not in order.
    TableLimits {
        table: usize,
        limits: Limits,
    },
    /// The limits of that memory are not in order, or not within 65,536 pages.
    MemoryLimits {
        memory: usize,
        limits: Limits,
    },
    /// It is the second table, of this number.
    SecondTable {
        tables: usize,
    },
    /// It is the second memory, of this number.
    SecondMemory {
        memories: usize,
    },
    /// The first value of that global is no constant expression of its type.
    GlobalValue {
        global: usize,
        wanted: ValType,
        initial: Initial,
    },
    /// What the export of that name names does not exist: there are this number of its kind.
    ExportedIndex {
        name: &'a [u8],
        kind: ExportKind,
        index: u32,
        count: usize,
    },
    /// An earlier export has the name.
    ExportedName {
        name: &'a [u8],
        earlier: usize,
    },
    /// The start function does not exist: there are this number of functions.
    StartMissing {
        func: u32,
        functions: usize,
    },
    /// The start function has that type.
    StartTyped {
        func: u32,
        signature: FunctionSignature,
    },
    /// The table of an element segment does not exist: there are this number of tables.
    ElementTable {
        table: u32,
        tables: usize,
    },
    /// The offset of an element segment is no constant expression of type i32.
    ElementOffset(Initial),
    /// The function at that position of an element segment does not exist: there are this number of functions.
    ElementFunction {
        position: usize,
        func: u32,
        functions: usize,
    },
    /// The memory of a data segment does not exist: there are this number of memories.
    DataMemory {
        memory: u32,
        memories: usize,
    },
    /// The offset of a data segment is no constant expression of type i32.
    DataOffset(Initial),
}

/// An item of a module that breaks a module rule.
#[derive(Drop)]
pub struct BrokenItem<'a> {
    /// The id of the section in which it stands (5.5.2).
    pub section: u8,
    /// Its position in the section, from 0.
    pub position: usize,
    /// The offset of its first byte in the module.
    pub at: Option<usize>,
    /// Its initial value or its offset, where that breaks the rule.
    pub value: Option<InitialValue>,
    pub fault: ItemFault<'a>,
}
