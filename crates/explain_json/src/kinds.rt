//! Kinds and causes as words, which docs/FORMATS.md promises to keep.

use explanation::{Cause, ExplanationKind, Form, ItemFault, Wrong};

/// The word for a form of file that is no module.
fn form_word(form: Form) -> &'static str {
    match form {
        Form::Text => "text",
        Form::Gzip => "gzip",
        Form::Component => "component",
        Form::Xz => "xz",
        Form::Zstd => "zstd",
        Form::Elf => "elf",
        Form::Objects => "objects",
        Form::Bitcode => "bitcode",
        Form::Markup => "markup",
        Form::Json => "json",
        Form::Zip => "zip",
        Form::Base64 => "base64",
        Form::Utf16 => "utf16",
        Form::ByteOrderMark => "bom",
        Form::LfsPointer => "lfs-pointer",
    }
}

/// The word for a kind: the name in `gate_why` of `gate.h`.
pub fn kind_word(kind: ExplanationKind) -> &'static str {
    match kind {
        ExplanationKind::Accepted => "accepted",
        ExplanationKind::TooLarge => "too-large",
        ExplanationKind::OtherForm(form) => form_word(form),
        ExplanationKind::ShortHeader => "short-header",
        ExplanationKind::Magic => "magic",
        ExplanationKind::Version => "version",
        ExplanationKind::Sections => "sections",
        ExplanationKind::Rule => "rule",
        ExplanationKind::BodyMalformed => "body-malformed",
        ExplanationKind::Locals => "locals",
        ExplanationKind::Token => "token",
        ExplanationKind::Else => "else",
        ExplanationKind::Left => "left",
        ExplanationKind::ShortBody => "short-body",
        ExplanationKind::TooManyLocals => "too-many-locals",
        ExplanationKind::IllTyped => "ill-typed",
        ExplanationKind::Memory => "no-memory",
    }
}

/// The word for a cause of an ill-typed token.
pub fn cause_word(cause: &Cause) -> &'static str {
    match cause {
        Cause::Operand { .. } => "operand",
        Cause::Missing { .. } => "missing",
        Cause::LeftOver { .. } => "left-over",
        Cause::NoElse(_) => "no-else",
        Cause::NoIndex { .. } => "no-index",
        Cause::Immutable { .. } => "immutable",
        Cause::NoMemory => "no-memory",
        Cause::NoTable => "no-table",
        Cause::Alignment { .. } => "alignment",
        Cause::Labels { .. } => "labels",
        Cause::Select { .. } => "select",
    }
}

/// The word for what is wrong with an item.
pub fn fault_word(fault: &ItemFault<'_>) -> &'static str {
    match fault {
        ItemFault::ImportedType { .. } => "imported-type",
        ItemFault::DefinedType { .. } => "defined-type",
        ItemFault::TableLimits { .. } => "table-limits",
        ItemFault::MemoryLimits { .. } => "memory-limits",
        ItemFault::SecondTable { .. } => "second-table",
        ItemFault::SecondMemory { .. } => "second-memory",
        ItemFault::GlobalValue { .. } => "global-value",
        ItemFault::ExportedIndex { .. } => "exported-index",
        ItemFault::ExportedName { .. } => "exported-name",
        ItemFault::StartMissing { .. } => "start-missing",
        ItemFault::StartTyped { .. } => "start-type",
        ItemFault::ElementTable { .. } => "element-table",
        ItemFault::ElementOffset(_) => "element-offset",
        ItemFault::ElementFunction { .. } => "element-function",
        ItemFault::DataMemory { .. } => "data-memory",
        ItemFault::DataOffset(_) => "data-offset",
    }
}

/// The word for what is wrong where reading sections stopped.
pub fn wrong_word(wrong: Wrong) -> &'static str {
    match wrong {
        Wrong::Ends(_) => "ends",
        Wrong::Cut(_) | Wrong::CutConstant(_) => "number-cut",
        Wrong::LongNumber(_) | Wrong::LongConstant(_) => "number-long",
        Wrong::LargeNumber(_) | Wrong::LargeConstant(_) => "number-large",
        Wrong::Byte { .. } => "byte",
        Wrong::Beyond { .. } => "size-beyond",
        Wrong::NoText { .. } => "name-not-utf8",
        Wrong::Id => "section-id",
        Wrong::Order { .. } => "section-order",
        Wrong::Size { .. } => "section-size",
        Wrong::Opcode { .. } => "opcode",
        Wrong::Else => "else",
        Wrong::Expression => "expression",
        Wrong::Counts { .. } => "counts",
    }
}
