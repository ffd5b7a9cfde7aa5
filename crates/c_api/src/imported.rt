//! What a module imports, as fields and texts: `gate_import` of gate.h.

ghost use Rattle.std.specs.Prelude.{◌≡◌, MatchBool, slice_get};
ghost use Rattle.c_api.specs.Exported.{params_of, results_of};
ghost use Rattle.c_api.specs.Imported.{import_fields, TellsImport, TellsItemName, TellsModuleName};

use crate::status::{NOTHING, OK};
use crate::text::hand_text;
use verdict::Accepted;
use wsyntax::{FuncTypes, ImportKind};

/// What is imported.
#[repr(C)]
#[derive(Clone, Copy)]
pub struct GateImport {
    /// 0 a function, 1 a table, 2 a memory, 3 a global.
    pub kind: u32,
    /// How many parameters it has, where it is a function, else 0.
    pub params: u32,
    /// How many results it has, where it is a function, else 0.
    pub results: u32,
}

const _: () = prove!(size_of::<GateImport>() == 12 && align_of::<GateImport>() == 4);

/// How many parameters and results the type of that index has; 0 and 0 where there is none.
fn counts_in(types: &FuncTypes, index: u32) -> (u32, u32)
    ensures params { result.0 ≡ params_of (slice_get types.now index) }
    ensures results { result.1 ≡ results_of (slice_get types.now index) }
{
    match types.get(index as usize) {
        Some(of_type) => (of_type.params.len() as u32, of_type.results.len() as u32),
        None => (0, 0),
    }
}

impl GateImport {
    /// The fields of an import of a module with these types.
    fn of(types: &FuncTypes, kind: ImportKind) -> GateImport
        ensures { result ≡ import_fields types.now kind }
    {
        let (kind, (params, results)) = match kind {
            ImportKind::Function(index) => (0, counts_in(types, index)),
            ImportKind::Table(_) => (1, (0, 0)),
            ImportKind::Memory(_) => (2, (0, 0)),
            ImportKind::Global(_) => (3, (0, 0)),
        };
        GateImport {
            kind,
            params,
            results,
        }
    }
}

/// Writes the import at that position. 0: it is written; 4: there is none.
pub(crate) fn tell_import(accepted: &Accepted<'_>, position: u64, import: &mut GateImport) -> u32
    ensures { TellsImport accepted.now position import.old import.new result }
{
    let Some(found) = accepted.module().imports.get(position as usize) else {
        return NOTHING;
    };
    *import = GateImport::of(&accepted.module().types, found.kind);
    OK
}

/// Writes a name of the import at that position, that of its module or its own, where there is room for it, and its length. 0: it is
/// written; 4: there is no such import; 75: there is no room.
pub(crate) fn tell_import_name(
    accepted: &Accepted<'_>,
    position: u64,
    of_module: bool,
    out: &mut [u8],
    length: &mut usize,
) -> u32
    ensures { MatchBool of_module (TellsModuleName accepted.now position out.old out.new length.old length.new result)
        (TellsItemName accepted.now position out.old out.new length.old length.new result) }
{
    let Some(found) = accepted.module().imports.get(position as usize) else {
        return NOTHING;
    };
    if of_module {
        hand_text(found.module, OK, out, length)
    } else {
        hand_text(found.name, OK, out, length)
    }
}
