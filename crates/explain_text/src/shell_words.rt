//! What stands in the shell of a module, in words, and what of it is of later standards.

use crate::opcode_names::Feature;
use explanation::Wanted;

/// How to build a module of Core 1.0 alone, and what an author of text does.
const OF_CORE_1: &str =
    "with -mcpu=mvp, in Rust for wasm32v1-none; in text do without it (docs/GUESTS.md)";

/// The same, where a segment is passive.
const ACTIVE: &str =
    "with -mcpu=mvp, in Rust for wasm32v1-none; in text give each segment an offset (docs/GUESTS.md)";

/// How to build a module without vectors.
const NO_VECTORS: &str =
    "with -mcpu=mvp, without -msimd128, in Rust for wasm32v1-none; in text use no v128 (docs/GUESTS.md)";

/// How to build a module without exceptions.
const NO_EXCEPTIONS: &str =
    "with -fno-exceptions, in Rust with -C panic=abort; in text do without it (docs/GUESTS.md)";

/// How to build a module whose initial values are not computed.
const ONE_CONSTANT: &str = "with -mno-extended-const; in text give one constant (docs/GUESTS.md)";

/// The feature or proposal of a later standard that something in a module belongs to.
#[derive(Clone, Copy, PartialEq, Eq)]
pub(crate) enum Origin {
    Of(Feature),
    Passive,
    Memory64,
    Memories,
    PageSizes,
    ExtendedConstants,
}

impl Origin {
    /// In words.
    pub(crate) fn words(self) -> &'static str {
        match self {
            Origin::Of(feature) => feature.title(),
            Origin::Passive => Feature::BulkMemory.title(),
            Origin::Memory64 => "64-bit addresses (Core 3.0)",
            Origin::Memories => "several memories (Core 3.0)",
            Origin::PageSizes => "custom page sizes (a proposal)",
            Origin::ExtendedConstants => "extended constants (Core 3.0)",
        }
    }

    /// How to build the module, so that it has none of it.
    pub(crate) fn hint(self) -> Option<&'static str> {
        match self {
            Origin::Of(Feature::Threads) => Some("without -pthread and --shared-memory"),
            Origin::Of(Feature::Vectors | Feature::RelaxedVectors) => Some(NO_VECTORS),
            Origin::Of(Feature::Exceptions | Feature::LegacyExceptions) => Some(NO_EXCEPTIONS),
            Origin::Of(feature) if feature.is_left_out_by_mvp() => Some(OF_CORE_1),
            Origin::Passive => Some(ACTIVE),
            Origin::Memory64 => Some("with --target=wasm32 (docs/GUESTS.md)"),
            Origin::ExtendedConstants => Some(ONE_CONSTANT),
            _ => None,
        }
    }
}

/// What is of a later standard: its name, and what it is of.
pub(crate) type Later = (&'static str, Origin);

/// The name of a section (5.5.2, and later standards).
pub(crate) fn section_name(id: u8) -> &'static str {
    match id {
        0 => "custom",
        1 => "type",
        2 => "import",
        3 => "function",
        4 => "table",
        5 => "memory",
        6 => "global",
        7 => "export",
        8 => "start",
        9 => "element",
        10 => "code",
        11 => "data",
        12 => "data count",
        13 => "tag",
        _ => "",
    }
}

/// What an item of a section is.
pub(crate) fn item_name(id: u8) -> &'static str {
    match id {
        9 => "element segment",
        10 => "body",
        11 => "data segment",
        _ => section_name(id),
    }
}

/// What is wanted.
pub(crate) fn wanted_words(wanted: Wanted) -> &'static str {
    match wanted {
        Wanted::SectionSize => "the size of a section",
        Wanted::Count => "a count",
        Wanted::NameSize => "the size of a name",
        Wanted::TypeForm => "the form of a type",
        Wanted::ValueType => "a value type",
        Wanted::ElementType => "an element type",
        Wanted::MemoryFlags | Wanted::TableFlags => "the flags of limits",
        Wanted::Minimum => "a minimum",
        Wanted::Maximum => "a maximum",
        Wanted::Mutability => "a mutability",
        Wanted::ImportKind => "the kind of an import",
        Wanted::ExportKind => "the kind of an export",
        Wanted::Index => "an index",
        Wanted::BodySize => "the size of a body",
        Wanted::DataSize => "the size of a segment's data",
        Wanted::Instruction => "an instruction",
        Wanted::BlockType => "the type of a block",
        Wanted::TableByte => "the byte of the table",
        Wanted::MemoryByte => "the byte of the memory",
        Wanted::Alignment => "an alignment",
        Wanted::Offset => "an offset",
        Wanted::I32 => "an i32",
        Wanted::I64 => "an i64",
        Wanted::F32 => "an f32",
        Wanted::F64 => "an f64",
    }
}

/// Which bytes are wanted.
pub(crate) fn wanted_bytes(wanted: Wanted) -> &'static str {
    match wanted {
        Wanted::TypeForm => "60 is",
        Wanted::ValueType => "7f, 7e, 7d and 7c are",
        Wanted::ElementType => "70 is",
        Wanted::ImportKind | Wanted::ExportKind => "00, 01, 02 and 03 are",
        Wanted::BlockType => "40, 7f, 7e, 7d, 7c and the index of a type are",
        Wanted::TableByte | Wanted::MemoryByte => "00 is",
        _ => "00 and 01 are",
    }
}

/// The value type of that byte, of a later standard.
fn later_type(byte: u8) -> Option<(&'static str, Feature)> {
    match byte {
        0x7B => Some(("v128", Feature::Vectors)),
        0x70 => Some(("funcref", Feature::ReferenceTypes)),
        0x6F => Some(("externref", Feature::ReferenceTypes)),
        0x69 => Some(("exnref", Feature::Exceptions)),
        0x64 => Some(("a reference", Feature::FunctionReferences)),
        0x63 => Some(("a reference that may be null", Feature::FunctionReferences)),
        0x6E => Some(("anyref", Feature::GarbageCollection)),
        0x6D => Some(("eqref", Feature::GarbageCollection)),
        0x6C => Some(("i31ref", Feature::GarbageCollection)),
        0x6B => Some(("structref", Feature::GarbageCollection)),
        0x6A => Some(("arrayref", Feature::GarbageCollection)),
        0x73 => Some(("nullfuncref", Feature::GarbageCollection)),
        0x72 => Some(("nullexternref", Feature::GarbageCollection)),
        0x71 => Some(("nullref", Feature::GarbageCollection)),
        _ => None,
    }
}

/// The form of a type of that byte, of garbage collection.
fn later_form(byte: u8) -> Option<&'static str> {
    match byte {
        0x5F => Some("that of a struct"),
        0x5E => Some("that of an array"),
        0x50 => Some("that of a type with supertypes"),
        0x4F => Some("that of a final type with supertypes"),
        0x4E => Some("that of recursive types"),
        _ => None,
    }
}

/// The flags of that byte, of a later standard.
fn later_flags(byte: u8, of_memory: bool) -> Option<Later> {
    let threads = Origin::Of(Feature::Threads);
    match byte {
        2 | 3 if of_memory => Some(("those of a shared memory", threads)),
        2 | 3 => Some(("those of a shared table", threads)),
        4 | 5 if of_memory => Some(("those of a 64-bit memory", Origin::Memory64)),
        4 | 5 => Some(("those of a 64-bit table", Origin::Memory64)),
        6 | 7 if of_memory => Some(("those of a shared 64-bit memory", threads)),
        8..=15 if of_memory => Some(("those of a memory of other pages", Origin::PageSizes)),
        _ => None,
    }
}

/// What that byte is in a later standard, where something else is wanted.
pub(crate) fn later_byte(wanted: Wanted, byte: u8) -> Option<Later> {
    let (name, feature) = match wanted {
        Wanted::MemoryFlags => return later_flags(byte, true),
        Wanted::TableFlags => return later_flags(byte, false),
        Wanted::MemoryByte => return Some(("an index of a memory", Origin::Memories)),
        Wanted::TableByte => ("an index of a table", Feature::ReferenceTypes),
        Wanted::ElementType if byte == 0x40 => (
            "that of a table with a first value",
            Feature::FunctionReferences,
        ),
        Wanted::ImportKind | Wanted::ExportKind if byte == 4 => (
            "that of a tag",
            Feature::Exceptions,
        ),
        Wanted::ValueType | Wanted::BlockType | Wanted::ElementType => later_type(byte)?,
        Wanted::TypeForm => (later_form(byte)?, Feature::GarbageCollection),
        _ => return None,
    };
    Some((name, Origin::Of(feature)))
}

/// What the section of that id is of, of a later standard.
pub(crate) fn later_section(id: u8) -> Option<Origin> {
    match id {
        12 => Some(Origin::Of(Feature::BulkMemory)),
        13 => Some(Origin::Of(Feature::Exceptions)),
        _ => None,
    }
}

/// What a segment of the section of that id is, of a later standard, that begins with that number.
pub(crate) fn later_segment(id: u8, first: u32) -> Option<Later> {
    let bulk = Origin::Of(Feature::BulkMemory);
    let references = Origin::Of(Feature::ReferenceTypes);
    match (id, first) {
        (9 | 11, 1) => Some(("a passive one", Origin::Passive)),
        (9, 2) => Some(("one that names its table", bulk)),
        (9, 3) => Some(("a declarative one", references)),
        (9, 4) => Some(("one of expressions", references)),
        (9, 5) => Some(("a passive one of expressions", references)),
        (9, 6) => Some(("one of expressions that names its table", references)),
        (9, 7) => Some(("a declarative one of expressions", references)),
        (11, 2) => Some(("one that names its memory", bulk)),
        _ => None,
    }
}
