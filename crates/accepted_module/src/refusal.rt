ghost use Rattle.std.specs.Prelude.{◌≡◌, option_map, List, Some, None};
ghost use Rattle.wsyntax.specs.Modules.{module_shape, BodyShape};
ghost use Rattle.wsyntax.specs.Execution.Start.{start_refusal, has_floats};
ghost use Rattle.wsyntax.specs.StartRefusals.{refusal_of};
ghost use Rattle.accepted_module.specs.InitialStates.{IsLayoutOf};

use crate::initial_state::InitialState;
use crate::sizes::{memory_pages, table_size};
use wsyntax::{Module, StartRefusal, TABLE_LIMIT};

/// Why there is no instance of a module, the refusal of the least number where there are several. `uses_floats` says whether
/// the module mentions floats. It takes constant time.
pub(crate) fn refusal(
    module: &Module<'_>,
    layout: &InitialState,
    uses_floats: bool,
    pages: u32,
) -> Option<StartRefusal>
    requires { IsLayoutOf (module_shape «module».now) layout.now }
    ensures { (bodies : List BodyShape) → uses_floats ≡ has_floats (module_shape «module».now) bodies
        → option_map refusal_of result ≡ start_refusal pages (module_shape «module».now) bodies }
{
    if !module.imports.is_empty() {
        return Some(StartRefusal::HasImports);
    }
    if uses_floats {
        return Some(StartRefusal::HasFloats);
    }
    if table_size(module) > TABLE_LIMIT {
        return Some(StartRefusal::TableLimit);
    }
    if memory_pages(module) > pages {
        return Some(StartRefusal::MemoryLimit);
    }
    if let Some(segment) = layout.first_out_of_bounds_elem() {
        return Some(StartRefusal::ElementOutside(segment));
    }
    if let Some(segment) = layout.data_outside() {
        return Some(StartRefusal::DataOutside(segment));
    }
    None
}
