use crate::globals::first_words;
use crate::offsets::{offsets_of_data, offsets_of_elements};
use crate::segments::{first_data_outside, first_element_outside};
use crate::sizes::{memory_pages, table_size};
use std::alloc::{AllocError, Global};
use wsyntax::{Module, PAGE};

/// What each instance of a module starts from (4.5.4), whatever its settings are. It is that of a module without imports,
/// whose constant expressions are constants.
#[derive(Drop)]
pub struct InitialState {
    globals: Vec<u64>,
    element_offsets: Vec<u32>,
    data_offsets: Vec<u32>,
    first_out_of_bounds_elem: Option<u32>,
    data_outside: Option<u32>,
}

impl InitialState {
    ghost use Rattle.std.specs.Prelude.{◌≡◌, IfOk};
    ghost use Rattle.wsyntax.specs.Modules.{module_shape};
    ghost use Rattle.wsyntax.specs.Validation.Rules.{ElementsValid, SegmentsValid};
    ghost use Rattle.accepted_module.specs.Sizes.{HasFewSegments};
    ghost use Rattle.accepted_module.specs.InitialStates.{IsLayoutOf};

    /// The layout of a module. Its table and its memory may be larger than any instance may have.
    pub fn of(alloc: Global, module: &Module<'_>) -> Result<InitialState, AllocError>
        requires few { HasFewSegments (module_shape «module».now) }
        requires elements { ElementsValid (module_shape «module».now) }
        requires segments { SegmentsValid (module_shape «module».now) }
        ensures { IfOk result (IsLayoutOf (module_shape «module».now)) }
    {
        let elements = &module.elements;
        let segments = module.data.as_slice();
        let entries = table_size(module) as usize;
        let bytes = memory_pages(module) as usize * PAGE;
        Ok(InitialState {
            globals: first_words(alloc, &module.globals)?,
            element_offsets: offsets_of_elements(alloc, elements)?,
            data_offsets: offsets_of_data(alloc, segments)?,
            first_out_of_bounds_elem: first_element_outside(entries, elements),
            data_outside: first_data_outside(bytes, segments),
        })
    }

    /// The first value of each global without its tag, an i32 in the low half of its word.
    pub fn globals(&self) -> &[u64]
        ensures { result.now ≡ self.now.globals.items }
    {
        &self.globals
    }

    /// Of each element segment the index of the entry that it begins with.
    pub fn element_offsets(&self) -> &[u32]
        ensures { result.now ≡ self.now.element_offsets.items }
    {
        &self.element_offsets
    }

    /// Of each data segment the address of the byte that it begins with.
    pub fn data_offsets(&self) -> &[u32]
        ensures { result.now ≡ self.now.data_offsets.items }
    {
        &self.data_offsets
    }

    /// The index of the first element segment that does not end within the table's minimum.
    pub fn first_out_of_bounds_elem(&self) -> Option<u32>
        ensures { result ≡ self.now.first_out_of_bounds_elem }
    {
        self.first_out_of_bounds_elem
    }

    /// The index of the first data segment that does not end within the memory's minimum.
    pub fn data_outside(&self) -> Option<u32>
        ensures { result ≡ self.now.data_outside }
    {
        self.data_outside
    }
}
