ghost use Rattle.std.specs.Prelude.{◌≡◌, ◌≤◌, IfOk, IfErr};
ghost use Rattle.wsyntax.specs.Modules.{module_shape};
ghost use Rattle.wsyntax.specs.Execution.Start.{fresh_store};
ghost use Rattle.soundness.specs.Slots.{slot_store};
ghost use Rattle.interpreter.specs.Seen.{seen};
ghost use Rattle.interpreter.specs.Buffers.{room_with};
ghost use Rattle.accepted_module.specs.InitialStates.{IsLayoutOf};
ghost use Rattle.wstore.specs.LaidOut.{IsLaidOut};

use crate::memory_part::module_memory;
use crate::table_part::module_table;
use accepted_module::InitialState;
use interpreter::InstanceState;
use memory::CleanMem;
use std::alloc::Global;
use wsyntax::Module;

/// The parts of a fresh store, and what is left of the memory `clean` that was lent. Where memory is refused, all of it comes
/// back.
pub(crate) fn fresh_parts(
    alloc: Global,
    module: &Module<'_>,
    layout: &InitialState,
    pages: u32,
    clean: CleanMem,
) -> Result<(InstanceState, CleanMem), CleanMem>
    requires allowed { IsLaidOut pages (module_shape «module».now) }
    requires laid { IsLayoutOf (module_shape «module».now) layout.now }
    ensures fresh { IfOk result (λ r. seen r.0 ≡ slot_store (fresh_store pages (module_shape «module».now))) }
    ensures room { IfOk result (λ r. clean ≤ room_with r.0.memory r.1) }
    ensures refused { IfErr result (λ back. back ≡ clean) }
{
    let Ok(globals) = Vec::from_slice(alloc, layout.globals()) else {
        return Err(clean);
    };
    let Ok(table) = module_table(alloc, module, layout) else {
        return Err(clean);
    };
    let (memory, lent) = module_memory(alloc, module, layout, pages, clean)?;
    let parts = InstanceState {
        memory,
        table,
        globals,
    };
    Ok((parts, lent))
}
