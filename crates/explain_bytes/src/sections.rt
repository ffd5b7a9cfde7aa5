//! The ids of sections (5.5.2), and the header before them.

/// How many bytes the magic and the version are.
pub(crate) const HEADER: usize = 8;

pub(crate) const CUSTOM: u8 = 0;

pub const IMPORT: u8 = 2;

pub const FUNCTION: u8 = 3;

pub const TABLE: u8 = 4;

pub const MEMORY: u8 = 5;

pub const GLOBAL: u8 = 6;

pub const EXPORT: u8 = 7;

pub const START: u8 = 8;

pub const ELEMENT: u8 = 9;

pub(crate) const CODE: u8 = 10;

pub const DATA: u8 = 11;

/// Those of later standards.
pub const DATA_COUNT: u8 = 12;

pub const TAG: u8 = 13;
