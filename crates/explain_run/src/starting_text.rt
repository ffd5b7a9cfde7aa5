//! Why no instance starts, in words.
ghost use Rattle.std.specs.Prelude.{◌≡◌, ◌++◌, codes, IfOk, IfSome, length, option_map, string_bytes};
ghost use Rattle.wsyntax.specs.Modules.{module_shape};
ghost use Rattle.wsyntax.specs.Execution.Start.{start_refusal};
ghost use Rattle.accepted_module.specs.Judgement.{shapes_of};
ghost use Rattle.explain_text.specs.Texts.{BeginsWith};
ghost use Rattle.explain_run.specs.Starting.{IsStartLine, IsTokenOf, reason_text, refusal_named};

use crate::starting::{FloatLocation, NotStarting, not_starting};
use accepted_module::{Accepted, memory_pages, table_size};
use explain_bytes::{body_span, find_token, name_of};
use explain_text::{push_lists, push_name, push_token, type_name};
use explanation::{FoundToken, first_export};
use std::alloc::{AllocError, Global};
use wdecode::Fault;
use wsyntax::{Import, ImportKind, Module, PAGE, TABLE_LIMIT};

/// The token at that position of the body of that function of a module without imports, where it is found.
fn token_of(
    alloc: Global,
    bytes: &[u8],
    module: &Module<'_>,
    func: usize,
    position: usize,
) -> Result<Option<FoundToken>, AllocError>
    ensures { IfOk result (λ found. IfSome found (IsTokenOf bytes.now (module_shape «module».now).bodies func position)) }
{
    let Some(body) = module.bodies.get(func) else {
        return Ok(None);
    };
    let Some(span) = body_span(bytes, func, body) else {
        return Ok(None);
    };
    match find_token(alloc, body, span.from, position) {
        Ok(found) => Ok(Some(found)),
        Err(Fault::Malformed) => Ok(None),
        Err(Fault::Memory) => Err(AllocError),
    }
}

/// The words of a reason.
fn reason_words(alloc: Global, why: &NotStarting<'_>) -> Result<String, AllocError>
    ensures { IfOk result (λ words. string_bytes words ≡ reason_text (refusal_named why.now)) }
{
    match why {
        NotStarting::Import(_) => String::from_str(alloc, "not-started imports"),
        NotStarting::Floats(_) => String::from_str(alloc, "not-started floats"),
        NotStarting::TableLimit(_) => String::from_str(alloc, "not-started table-limit"),
        NotStarting::MemoryLimit(_) => String::from_str(alloc, "not-started memory-limit"),
        NotStarting::ElementOutside(segment) => format!(in alloc;
            "not-started element-outside {segment}"
        ),
        NotStarting::DataOutside(segment) => format!(in alloc;
            "not-started data-outside {segment}"
        ),
    }
}

/// What an import asks for, in words.
fn import_words(kind: ImportKind) -> &'static str {
    match kind {
        ImportKind::Function(_) => "a function",
        ImportKind::Table(_) => "a table",
        ImportKind::Memory(_) => "a memory",
        ImportKind::Global(_) => "a global",
    }
}

/// The first import.
fn push_import(text: &mut String, import: &Import<'_>) -> Result<(), AllocError> {
    text.push_str(": import 0 ")?;
    push_name(text, import.module)?;
    text.push_str(" ")?;
    push_name(text, import.name)?;
    text.push_str(" is ")?;
    text.push_str(import_words(import.kind))
}

/// A function by its index, and its name, or that of its first export.
fn push_function(
    text: &mut String,
    bytes: &[u8],
    module: &Module<'_>,
    func: usize,
) -> Result<(), AllocError> {
    write!(text, ": function {func}")?;
    let Ok(index) = u32::try_from(func) else {
        return Ok(());
    };
    let name = name_of(bytes, index);
    if let Some(name) = name.or(first_export(&module.exports, index)) {
        text.push_str(" ")?;
        push_name(text, name)?;
    }
    Ok(())
}

/// A token with floats.
fn push_float_token(
    text: &mut String,
    alloc: Global,
    bytes: &[u8],
    module: &Module<'_>,
    func: usize,
    position: usize,
) -> Result<(), AllocError> {
    push_function(text, bytes, module, func)?;
    write!(text, " token {position}")?;
    if let Some(found) = token_of(alloc, bytes, module, func, position)? {
        text.push_str(" ")?;
        push_token(text, &found)?;
        let at = found.span.from;
        write!(text, ", byte 0x{at:x}")?;
    }
    Ok(())
}

/// A function type with floats.
fn push_float_type(text: &mut String, module: &Module<'_>, index: usize) -> Result<(), AllocError> {
    write!(text, ": type {index}")?;
    if let Some(of_type) = module.types.get(index) {
        text.push_str(" is ")?;
        push_lists(text, of_type.params, of_type.results)?;
    }
    Ok(())
}

/// A global that is a float.
fn push_float_global(
    text: &mut String,
    module: &Module<'_>,
    index: usize,
) -> Result<(), AllocError> {
    write!(text, ": global {index}")?;
    if let Some(global) = module.globals.get(index) {
        text.push_str(" is ")?;
        text.push_str(type_name(global.global_type.val_type))?;
    }
    Ok(())
}

/// Locals that are floats.
fn push_float_locals(
    text: &mut String,
    bytes: &[u8],
    accepted: &Accepted<'_>,
    func: usize,
    run: usize,
) -> Result<(), AllocError> {
    push_function(text, bytes, accepted.module(), func)?;
    text.push_str(" declares locals")?;
    if let Some(body) = accepted.bodies().get(func) {
        if let Some(run) = body.locals().get(run) {
            text.push_str(" of type ")?;
            text.push_str(type_name(run.val_type))?;
        }
    }
    Ok(())
}

/// Where floats stand first.
fn push_floats(
    text: &mut String,
    alloc: Global,
    bytes: &[u8],
    accepted: &Accepted<'_>,
    location: Option<FloatLocation>,
) -> Result<(), AllocError> {
    let module = accepted.module();
    match location {
        Some(FloatLocation::Type(index)) => push_float_type(text, module, index),
        Some(FloatLocation::Global(index)) => push_float_global(text, module, index),
        Some(FloatLocation::Local { func, run }) => push_float_locals(
            text, bytes, accepted, func, run,
        ),
        Some(FloatLocation::Token { func, position }) => push_float_token(
            text, alloc, bytes, module, func, position,
        ),
        None => Ok(()),
    }
}

/// An element segment that ends past the table.
fn push_element(
    text: &mut String,
    accepted: &Accepted<'_>,
    segment: u32,
) -> Result<(), AllocError> {
    let module = accepted.module();
    let size = table_size(module);
    let offset = accepted.layout().element_offsets().get(segment as usize);
    if let (Some(found), Some(from)) = (module.elements.get(segment as usize), offset) {
        let count = found.functions.len();
        let entries = if count == 1 { "entry" } else { "entries" };
        write!(
            text,
            ": it has {count} {entries} from {from} on, and the table has {size}"
        )?;
    }
    Ok(())
}

/// A data segment that ends past the memory.
fn push_data(text: &mut String, accepted: &Accepted<'_>, segment: u32) -> Result<(), AllocError> {
    let module = accepted.module();
    let size = u64::from(memory_pages(module)) * PAGE as u64;
    let offset = accepted.layout().data_offsets().get(segment as usize);
    if let (Some(found), Some(from)) = (module.data.get(segment as usize), offset) {
        let count = found.bytes.len();
        let bytes = if count == 1 { "byte" } else { "bytes" };
        write!(
            text,
            ": it has {count} {bytes} from {from} on, and the memory has {size}"
        )?;
    }
    Ok(())
}

/// What is named of a reason.
fn push_named_reason(
    text: &mut String,
    alloc: Global,
    bytes: &[u8],
    accepted: &Accepted<'_>,
    pages: u32,
    why: &NotStarting<'_>,
) -> Result<(), AllocError> {
    match why {
        NotStarting::Import(import) => push_import(text, import),
        NotStarting::Floats(location) => push_floats(text, alloc, bytes, accepted, *location),
        NotStarting::TableLimit(entries) => {
            write!(
                text,
                ": the table has {entries} entries, and {TABLE_LIMIT} are the most"
            )
        }
        NotStarting::MemoryLimit(least) => {
            write!(
                text,
                ": the memory has {least} pages, and {pages} are the most"
            )
        }
        NotStarting::ElementOutside(segment) => push_element(text, accepted, *segment),
        NotStarting::DataOutside(segment) => push_data(text, accepted, *segment),
    }
}

/// The line on an instance that does not start.
fn reason_line(
    alloc: Global,
    bytes: &[u8],
    accepted: &Accepted<'_>,
    pages: u32,
    why: &NotStarting<'_>,
) -> Result<String, AllocError>
    ensures { IfOk result (λ line. BeginsWith (reason_text (refusal_named why.now)) (string_bytes line)) }
{
    let mut line = reason_words(alloc, why)?;
    let mut named = String::new(alloc);
    push_named_reason(&mut named, alloc, bytes, accepted, pages, why)?;
    named.push_str("\n")?;
    line.push_str(named.as_str())?;
    Ok(line)
}

/// The line on the start of an instance: that it starts, or why it does not, and the item that is the reason.
pub(crate) fn start_line(
    alloc: Global,
    bytes: &[u8],
    accepted: &Accepted<'_>,
    pages: u32,
) -> Result<String, AllocError>
    ensures { IfOk result (λ line. IsStartLine
        (start_refusal pages (module_shape accepted.now.«module») (shapes_of accepted.now.bodies.items)) (string_bytes line)) }
{
    match not_starting(accepted, pages) {
        None => String::from_str(alloc, "starts\n"),
        Some(why) => reason_line(alloc, bytes, accepted, pages, &why),
    }
}

/// The line on an instance that does not start; none of one that starts.
pub fn push_not_starting(
    text: &mut String,
    alloc: Global,
    bytes: &[u8],
    accepted: &Accepted<'_>,
    pages: u32,
) -> Result<(), AllocError> {
    match not_starting(accepted, pages) {
        None => Ok(()),
        Some(why) => {
            text.push_str("calls     ")?;
            let line = reason_line(alloc, bytes, accepted, pages, &why)?;
            text.push_str(line.as_str())
        }
    }
}
