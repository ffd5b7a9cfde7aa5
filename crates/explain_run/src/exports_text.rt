//! The text of the exports of an accepted module: a line for each import, each export and each custom section, and whether an instance
//! starts.
ghost use Rattle.std.specs.Prelude.{◌≡◌, ◌++◌, IfOk, OnOk, flat_map, map, option_map, string_bytes};
ghost use Rattle.wsyntax.specs.FuncTypes.{func_type_of};
ghost use Rattle.wsyntax.specs.Modules.{export_shape, import_shape, module_shape};
ghost use Rattle.wsyntax.specs.Execution.Start.{start_refusal};
ghost use Rattle.accepted_module.specs.Judgement.{shapes_of};
ghost use Rattle.explain_text.specs.Types.{func_type_text, global_type_text};
ghost use Rattle.explain_run.specs.Exports.{custom_line, export_line, function_text, global_text, import_line, import_names, import_word};
ghost use Rattle.explain_run.specs.Exports.{imported_text, item_text, kind_word, IsExportsText};

use crate::customs::{CustomSection, customs_of};
use crate::starting_text::start_line;
use accepted_module::Accepted;
use explain_text::{push_lists, push_name, type_name};
use std::alloc::{AllocError, Global};
use wcontext::Context;
use wsyntax::{Export, ExportKind, FuncType, FuncTypes, GlobalType, Import, ImportKind};

/// The word of what an export names (2.5.10).
fn kind_name(kind: ExportKind) -> &'static str
    ensures { result.now ≡ kind_word kind }
{
    match kind {
        ExportKind::Function => "function",
        ExportKind::Table => "table",
        ExportKind::Memory => "memory",
        ExportKind::Global => "global",
    }
}

/// A function type with a blank before it, where there is one.
fn push_function_type(text: &mut String, found: Option<FuncType<'_>>) -> Result<(), AllocError>
    ensures { OnOk result (string_bytes text.new ≡ string_bytes text.old ++ function_text (option_map func_type_of found.entry)) }
{
    match found {
        None => Ok(()),
        Some(found) => {
            text.push_str(" ")?;
            push_lists(text, found.params, found.results)
        }
    }
}

/// A global type, with a blank before it.
fn push_global_type(text: &mut String, of_type: GlobalType) -> Result<(), AllocError>
    ensures { OnOk result (string_bytes text.new ≡ string_bytes text.old ++ global_text of_type) }
{
    text.push_str(" ")?;
    text.push_str(type_name(of_type.val_type))?;
    if of_type.mutable {
        text.push_str(" mut")?;
    }
    Ok(())
}

/// The type of an item, with a blank before it: of a function and of a global.
fn push_item(
    text: &mut String,
    context: &Context,
    kind: ExportKind,
    index: u32,
) -> Result<(), AllocError>
    ensures { OnOk result (string_bytes text.new ≡ string_bytes text.old ++ item_text context.now.context kind index) }
{
    match kind {
        ExportKind::Function => push_function_type(text, context.function(index)),
        ExportKind::Table | ExportKind::Memory => Ok(()),
        ExportKind::Global => match context.global(index) {
            None => Ok(()),
            Some(of_type) => push_global_type(text, of_type),
        },
    }
}

/// The line of an export.
fn push_export(text: &mut String, context: &Context, export: &Export<'_>) -> Result<(), AllocError>
    ensures { OnOk result (string_bytes text.new ≡ string_bytes text.old ++ export_line context.now.context (export_shape export.now)) }
{
    text.push_str(kind_name(export.kind))?;
    write!(text, " {} ", export.index)?;
    push_name(text, export.name)?;
    push_item(text, context, export.kind, export.index)?;
    text.push_str("\n")
}

/// The lines of exports.
fn push_exports(
    text: &mut String,
    context: &Context,
    exports: &[Export<'_>],
) -> Result<(), AllocError>
    ensures { OnOk result (string_bytes text.new
        ≡ string_bytes text.old ++ flat_map (λ e. export_line context.now.context (export_shape e)) exports.now) }
{
    for export in exports {
        push_export(text, context, export)?;
    }
    Ok(())
}

/// The word of what an import asks for (2.5.11).
fn import_kind_name(kind: ImportKind) -> &'static str
    ensures { result.now ≡ import_word kind }
{
    match kind {
        ImportKind::Function(_) => "function",
        ImportKind::Table(_) => "table",
        ImportKind::Memory(_) => "memory",
        ImportKind::Global(_) => "global",
    }
}

/// The type of what is imported, with a blank before it: of a function and of a global.
fn push_imported(text: &mut String, types: &FuncTypes, kind: ImportKind) -> Result<(), AllocError>
    ensures { OnOk result (string_bytes text.new ≡ string_bytes text.old ++ imported_text types.now kind) }
{
    match kind {
        ImportKind::Function(index) => push_function_type(text, types.get(index as usize)),
        ImportKind::Table(_) | ImportKind::Memory(_) => Ok(()),
        ImportKind::Global(of_type) => push_global_type(text, of_type),
    }
}

/// The name of the module of an import, and its own.
fn push_import_names(text: &mut String, import: &Import<'_>) -> Result<(), AllocError>
    ensures { OnOk result (string_bytes text.new ≡ string_bytes text.old ++ import_names (import_shape import.now)) }
{
    text.push_str("import ")?;
    push_name(text, import.module)?;
    text.push_str(" ")?;
    push_name(text, import.name)
}

/// The line of an import.
fn push_import_line(
    text: &mut String,
    types: &FuncTypes,
    import: &Import<'_>,
) -> Result<(), AllocError>
    ensures { OnOk result (string_bytes text.new ≡ string_bytes text.old ++ import_line types.now (import_shape import.now)) }
{
    push_import_names(text, import)?;
    text.push_str(" ")?;
    text.push_str(import_kind_name(import.kind))?;
    push_imported(text, types, import.kind)?;
    text.push_str("\n")
}

/// The lines of imports.
fn push_imports(
    text: &mut String,
    types: &FuncTypes,
    imports: &[Import<'_>],
) -> Result<(), AllocError>
    ensures { OnOk result (string_bytes text.new
        ≡ string_bytes text.old ++ flat_map (λ i. import_line types.now (import_shape i)) imports.now) }
{
    for import in imports {
        push_import_line(text, types, import)?;
    }
    Ok(())
}

/// The line of a custom section.
fn push_custom(text: &mut String, custom: &CustomSection<'_>) -> Result<(), AllocError>
    ensures { OnOk result (string_bytes text.new ≡ string_bytes text.old ++ custom_line custom.now) }
{
    text.push_str("custom ")?;
    push_name(text, custom.name)?;
    write!(text, " {}\n", custom.bytes)
}

/// The lines of custom sections.
fn push_customs(text: &mut String, customs: &[CustomSection<'_>]) -> Result<(), AllocError>
    ensures { OnOk result (string_bytes text.new ≡ string_bytes text.old ++ flat_map custom_line customs.now) }
{
    for custom in customs {
        push_custom(text, custom)?;
    }
    Ok(())
}

/// A line for each import, each export and each custom section of an accepted module, in their order, and after them whether an
/// instance of it starts whose memory may have `pages` pages. The module was judged from these bytes: where they are others, their
/// custom sections are told, and the byte of a token is another too.
pub fn text_of_exports(
    alloc: Global,
    bytes: &[u8],
    accepted: &Accepted<'_>,
    pages: u32,
) -> Result<String, AllocError>
    ensures { IfOk result (λ text. IsExportsText accepted.now.context.context
        (start_refusal pages (module_shape accepted.now.module) (shapes_of accepted.now.bodies.items))
        (module_shape accepted.now.module) (string_bytes text)) }
{
    let module = accepted.module();
    let customs = customs_of(alloc, bytes)?;
    let mut text = String::new(alloc);
    push_imports(&mut text, &module.types, &module.imports)?;
    push_exports(&mut text, accepted.context(), &module.exports)?;
    push_customs(&mut text, &customs)?;
    let last = start_line(alloc, bytes, accepted, pages)?;
    text.push_str(last.as_str())?;
    Ok(text)
}
