//! What a module exports, as fields and texts: `gate_export` of gate.h.

ghost use Rattle.std.specs.Prelude.{◌≡◌, ◌≤◌, Some, length, map, slice_get};
ghost use Rattle.wsyntax.specs.Binary.Types.{val_type_of};
ghost use Rattle.c_api.specs.Texts.{IsWritten};
ghost use Rattle.c_api.specs.Exported.{params_of, results_of, export_fields, type_byte};
ghost use Rattle.c_api.specs.Exported.{TellsExport, FindsExport, TellsName, TellsTypes};

use crate::status::{NOTHING, OK, SHORT_BUFFER};
use crate::text::hand_text;
use verdict::Accepted;
use wcontext::Context;
use wsyntax::{ExportKind, ValType};

/// What is exported.
#[repr(C)]
#[derive(Clone, Copy)]
pub struct GateExport {
    /// 0 a function, 1 a table, 2 a memory, 3 a global.
    pub kind: u32,
    /// Its index in the space of that kind, imported ones counted.
    pub index: u32,
    /// How many parameters it has, where it is a function, else 0.
    pub params: u32,
    /// How many results it has, where it is a function, else 0.
    pub results: u32,
}

const _: () = prove!(size_of::<GateExport>() == 16 && align_of::<GateExport>() == 4);

/// How many parameters and results the function of that index has; 0 and 0 where there is none.
fn counts_of(context: &Context, function: u32) -> (u32, u32)
    ensures params { result.0 ≡ params_of (slice_get context.now.context.functions function) }
    ensures results { result.1 ≡ results_of (slice_get context.now.context.functions function) }
{
    match context.function_lists(function) {
        Some(lists) => (
            context.list(lists.params).len() as u32,
            context.list(lists.results).len() as u32,
        ),
        None => (0, 0),
    }
}

impl GateExport {
    /// The fields of what is exported under this context.
    fn of(context: &Context, kind: ExportKind, index: u32) -> GateExport
        ensures { result ≡ export_fields context.now.context.functions kind index }
    {
        let (kind, (params, results)) = match kind {
            ExportKind::Function => (0, counts_of(context, index)),
            ExportKind::Table => (1, (0, 0)),
            ExportKind::Memory => (2, (0, 0)),
            ExportKind::Global => (3, (0, 0)),
        };
        GateExport {
            kind,
            index,
            params,
            results,
        }
    }
}

/// Writes the export at that position. 0: it is written; 4: there is none.
pub(crate) fn tell_export(accepted: &Accepted<'_>, position: u64, export: &mut GateExport) -> u32
    ensures { TellsExport accepted.now position export.old export.new result }
{
    accepted.accepted_holds();
    let Some(found) = accepted.module().exports.get(position as usize) else {
        return NOTHING;
    };
    *export = GateExport::of(accepted.context(), found.kind, found.index);
    OK
}

/// Writes what is exported under the name. 0: it is written; 4: nothing is exported under it.
pub(crate) fn find(accepted: &Accepted<'_>, name: &[u8], export: &mut GateExport) -> u32
    ensures { FindsExport accepted.now name.now export.old export.new result }
{
    accepted.accepted_holds();
    match accepted.export(name) {
        Some((kind, index)) => {
            *export = GateExport::of(accepted.context(), kind, index);
            OK
        }
        None => NOTHING,
    }
}

/// Writes the name of the export at that position, where there is room for it, and its length. 0: it is written; 4: there is no such
/// export; 75: there is no room.
pub(crate) fn tell_name(
    accepted: &Accepted<'_>,
    position: u64,
    out: &mut [u8],
    length: &mut usize,
) -> u32
    ensures { TellsName accepted.now position out.old out.new length.old length.new result }
{
    let Some(found) = accepted.module().exports.get(position as usize) else {
        return NOTHING;
    };
    hand_text(found.name, OK, out, length)
}

/// The byte that spells a value type.
fn byte_of(of_type: ValType) -> u8
    ensures byte { result ≡ type_byte of_type }
    ensures spelled { val_type_of result ≡ Some of_type }
{
    match of_type {
        ValType::I32 => 0x7F,
        ValType::I64 => 0x7E,
        ValType::F32 => 0x7D,
        ValType::F64 => 0x7C,
    }
}

/// Writes the bytes of types to the front of a buffer that has room for them.
fn put_types(types: &[ValType], out: &mut [u8])
    requires { length types.now ≤ length out.old }
    ensures { IsWritten (map type_byte types.now) out.old out.new }
{
    for position in 0..types.len() {
        out[position] = byte_of(types[position]);
    }
}

/// Writes the types of the function of that index. 0: they are written; 4: there is no such function; 75: there is no room.
pub(crate) fn tell_types(
    accepted: &Accepted<'_>,
    function: u32,
    params: &mut [u8],
    results: &mut [u8],
) -> u32
    ensures { TellsTypes accepted.now function params.old params.new results.old results.new result }
{
    let Some(of_type) = accepted.context().function(function) else {
        return NOTHING;
    };
    if params.len() < of_type.params.len() || results.len() < of_type.results.len() {
        return SHORT_BUFFER;
    }
    put_types(of_type.params, params);
    put_types(of_type.results, results);
    OK
}
