//! Value types, limits and global types (2.3).

/// A value type (2.3.1).
#[derive(Clone, Copy, PartialEq, Eq)]
pub enum ValType {
    I32,
    I64,
    F32,
    F64,
}

/// The size range of a table (in entries) or of a memory (in pages of 65,536 bytes) (2.3.4).
#[derive(Clone, Copy, PartialEq, Eq)]
pub struct Limits {
    pub min: u32,
    pub max: Option<u32>,
}

/// A global type (2.3.7): what the global holds, and whether it may be set.
#[derive(Clone, Copy, PartialEq, Eq)]
pub struct GlobalType {
    pub val_type: ValType,
    pub mutable: bool,
}
