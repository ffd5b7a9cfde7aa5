//! Where reading a module stops that is malformed outside its bodies, and what is wrong there.

use crate::explanation::Span;

/// A section of a module: its id, and its bytes from the id on.
#[derive(Clone, Copy, PartialEq, Eq)]
pub struct FoundSection {
    pub id: u8,
    pub span: Span,
}

/// What of a section could not be read.
#[derive(Clone, Copy, PartialEq, Eq)]
pub enum SectionPart {
    /// Its id.
    Id,
    /// Its size.
    Size,
    /// The name of a custom section.
    Name,
    /// How many items it has.
    Count,
    /// The item at that position, from 0.
    Item(u32),
    /// The index of the start function.
    Start,
    /// What follows its items.
    End,
}

/// What is wanted where reading stopped.
#[derive(Clone, Copy, PartialEq, Eq)]
pub enum Wanted {
    SectionSize,
    Count,
    NameSize,
    TypeForm,
    ValueType,
    ElementType,
    MemoryFlags,
    TableFlags,
    Minimum,
    Maximum,
    Mutability,
    ImportKind,
    ExportKind,
    Index,
    BodySize,
    DataSize,
    Instruction,
    BlockType,
    /// The byte 00 after the type of `call_indirect`, instead of which later standards have the index of a table.
    TableByte,
    /// The byte 00 after `memory.size` and `memory.grow`, instead of which later standards have the index of a memory.
    MemoryByte,
    Alignment,
    Offset,
    I32,
    I64,
    F32,
    F64,
}

/// What is wrong where reading stopped.
#[derive(Clone, Copy, PartialEq, Eq)]
pub enum Wrong {
    /// The section, or the module, ends there.
    Ends(Wanted),
    /// It ends within the number that begins there.
    Cut(Wanted),
    /// The number that begins there has more than five bytes.
    LongNumber(Wanted),
    /// The number that begins there is 2^32 or more.
    LargeNumber(Wanted),
    /// It ends within the constant that begins there.
    CutConstant(Wanted),
    /// The constant that begins there has more bytes than one of its type.
    LongConstant(Wanted),
    /// The constant that begins there is outside the range of its type.
    LargeConstant(Wanted),
    /// The byte there is not one that is wanted.
    Byte {
        wanted: Wanted,
        found: u8,
    },
    /// The size there is of more bytes than are left after it.
    Beyond {
        wanted: Wanted,
        size: u32,
        left: usize,
    },
    /// The name of that size there is no UTF-8.
    NoText {
        size: usize,
    },
    /// No section of Core 1.0 has the id there.
    Id,
    /// The section stands after one of that id, and may not.
    Order {
        last: u8,
    },
    /// The section says how many bytes its contents are, and they take another number.
    Size {
        says: usize,
        takes: usize,
    },
    /// No instruction begins with the byte there; `number` is the one after it, where there is one.
    Opcode {
        first: u8,
        number: Option<u32>,
    },
    /// An `else` stands there in no `if`.
    Else,
    /// No expression begins there, and no more is known.
    Expression,
    /// As many functions are declared, and the module has another number of bodies.
    Counts {
        functions: u32,
        bodies: u32,
    },
}

/// A segment that begins with another number than 0, as only those of later standards do in a valid module.
#[derive(Clone, Copy, PartialEq, Eq)]
pub struct OtherSegment {
    /// Its position among the segments, from 0.
    pub position: u32,
    pub first: u32,
    /// The offset of its first byte.
    pub at: usize,
}

/// The initial value of a global, or the offset of a segment.
#[derive(Clone, Copy, PartialEq, Eq)]
pub struct InitialValue {
    /// The offset of the first byte of its expression.
    pub at: usize,
    /// The offset and the first byte of the first instruction in it that is no constant.
    pub other: Option<(usize, u8)>,
}

/// Where reading stopped, and why.
#[derive(Clone, Copy, PartialEq, Eq)]
pub struct Location {
    /// The section; none at the end of the module.
    pub section: Option<FoundSection>,
    pub part: SectionPart,
    /// The offset of what could not be read.
    pub at: usize,
    pub wrong: Wrong,
    /// The first such segment of the section, up to where reading stopped.
    pub segment: Option<OtherSegment>,
    /// The first initial value or offset of the section in which an instruction is no constant, or which is not read to its end.
    pub value: Option<InitialValue>,
}
