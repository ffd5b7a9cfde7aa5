//! The memory of a fresh store.

ghost use Rattle.std.specs.Prelude.{◌≡◌, ◌*◌, true, length, max, IfOk, IfErr, option_map, ◌≤◌};
ghost use Rattle.wsyntax.specs.Execution.Allocation.{put_data, AllWithin, fresh_memory};
ghost use Rattle.wsyntax.specs.Execution.Store.{page, may_have};
ghost use Rattle.memory.specs.Buffered.{zeros};
ghost use Rattle.wsyntax.specs.Modules.{module_shape};
ghost use Rattle.wsyntax.specs.Execution.Start.{layout_of};
ghost use Rattle.interpreter.specs.Seen.{memory_of};
ghost use Rattle.interpreter.specs.Buffers.{room_with};
ghost use Rattle.accepted_module.specs.InitialStates.{IsLayoutOf};
ghost use Rattle.accepted_module.specs.Segments.{data_segments, offsets_of};
ghost use Rattle.wstore.specs.Buffers.{with_bytes};
ghost use Rattle.wstore.specs.LaidOut.{IsLaidOut};

use accepted_module::InitialState;
use memory::{CleanMem, LinearMemory};
use std::alloc::Global;
use wsyntax::{Data, Limits, Module};

/// Writes the data segments in order, each from its offset in `offsets` on.
fn put_data(memory: &mut LinearMemory, segments: &[Data<'_>], offsets: &[u32])
    requires within { AllWithin (length memory.old.memory.bytes) (data_segments segments.now) }
    requires placed { offsets.now ≡ offsets_of (data_segments segments.now) }
    ensures { memory.new ≡ with_bytes memory.old (put_data (data_segments segments.now) memory.old.memory.bytes) }
{
    for (index, segment) in segments.iter().enumerate() {
        memory.overwrite(offsets[index], segment.bytes);
    }
}

/// A memory of its minimum with zeros, and then the data segments in order. Where memory is refused, what was lent comes back
/// as it was.
pub(crate) fn fresh_memory(
    clean: CleanMem,
    limits: &Limits,
    pages: u32,
    segments: &[Data<'_>],
    offsets: &[u32],
) -> Result<LinearMemory, CleanMem>
    requires may_have { may_have (zeros limits.now.min limits.now.max pages) limits.now.min ≡ true }
    requires within { AllWithin (limits.now.min * page) (data_segments segments.now) }
    requires placed { offsets.now ≡ offsets_of (data_segments segments.now) }
    ensures memory { IfOk result (λ m. m.memory ≡ fresh_memory pages (data_segments segments.now) limits.now) }
    ensures room { IfOk result (λ m. m.room ≡ max clean (limits.now.min * page)) }
    ensures refused { IfErr result (λ back. back ≡ clean) }
{
    let mut memory = LinearMemory::allocate(clean, limits.min, limits.max, pages)?;
    put_data(&mut memory, segments, offsets);
    Ok(memory)
}

/// The memory of a fresh store, where the module has one, and what is left of what was lent.
pub(crate) fn module_memory(
    alloc: Global,
    module: &Module<'_>,
    layout: &InitialState,
    pages: u32,
    clean: CleanMem,
) -> Result<(Option<LinearMemory>, CleanMem), CleanMem>
    requires allowed { IsLaidOut pages (module_shape «module».now) }
    requires laid { IsLayoutOf (module_shape «module».now) layout.now }
    ensures memory { IfOk result
        (λ r. memory_of r.0 ≡ option_map (fresh_memory pages (layout_of (module_shape «module».now)).data')
        (layout_of (module_shape «module».now)).memory) }
    ensures room { IfOk result (λ r. clean ≤ room_with r.0 r.1) }
    ensures refused { IfErr result (λ back. back ≡ clean) }
{
    let Some(limits) = module.memories.first() else {
        return Ok((None, clean));
    };
    let memory = fresh_memory(clean, limits, pages, &module.data, layout.data_offsets())?;
    Ok((Some(memory), CleanMem::empty(alloc)))
}
