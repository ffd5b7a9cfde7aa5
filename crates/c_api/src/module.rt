//! What C holds of an accepted module: `gate_module` of gate.h.

ghost use Rattle.std.specs.Prelude.{◌≡◌, Option, Some};
ghost use Rattle.std.specs.Coded.{coded_option};
ghost use denote.RawPtr.{Ptr};
ghost use Rattle.std_alloc.specs.Box.Ownership.{box_owns};
ghost use Rattle.std.specs.contracts.impls.GlobalAllocator.TheImpl.{ghosts};
ghost use Rattle.c_api.specs.Slots.{slot_owns};
ghost use Rattle.c_api.specs.contracts.held.Held.{the_row};
ghost use Rattle.c_api.specs.declared.held.Held.{Held};

use crate::held::Held;
use crate::loose::Loose;
use std::alloc::Global;
use std::marker::Model;

/// A handle that C passes: it owns the box of the module.
#[repr(C)]
pub struct GateModule {
    at: *mut u8,
    alloc: Global,
    ghost value: { Held } by { the_row.coded },
}

const _: () = prove!(size_of::<GateModule>() == 8 && align_of::<GateModule>() == 8);

impl Model for GateModule {
    ghost also_owns = { λ h. box_owns (ghosts.dealloc_token h.alloc) the_row h.at h.value };
}

impl GateModule {
    /// The handle as a pointer of the box's own type.
    pub(crate) fn loose(self) -> Loose<Held, Global>
        ensures at { result.at ≡ self.at }
        ensures value { result.value ≡ self.value }
    {
        let GateModule { at, alloc } = self;
        Loose {
            at: at as *mut Held,
            alloc,
        }
    }
}

/// The slot of a handle that a call writes. What was there is never read; the handle that is written owns its box.
#[repr(C)]
#[derive(Drop)]
pub struct ModuleSlot {
    at: *mut u8,
    alloc: Global,
    ghost value: { Option Held } by { coded_option the_row.coded },
}

const _: () = prove!(size_of::<ModuleSlot>() == 8 && align_of::<ModuleSlot>() == 8);

impl Model for ModuleSlot {
    ghost also_owns = { λ s. slot_owns (ghosts.dealloc_token s.alloc) the_row s.at s.value };
}

impl ModuleSlot {
    /// A handle of the box at this pointer.
    pub(crate) fn tied(loose: Loose<Held, Global>) -> ModuleSlot
        ensures { result.value ≡ Some loose.value }
    {
        let Loose { at, alloc } = loose;
        ModuleSlot {
            at: at as *mut u8,
            alloc,
        }
    }
}

/// The status of a call that leaves its handle alive: it owns the box that the handle owned. C sees a `uint32_t`, which comes back
/// in the same register as a struct of one.
#[repr(C)]
pub struct ModuleStatus {
    status: u32,
    alloc: Global,
    ghost at: { Ptr },
    ghost value: { Held } by { the_row.coded },
}

const _: () = prove!(size_of::<ModuleStatus>() == 4 && align_of::<ModuleStatus>() == 4);

impl Model for ModuleStatus {
    ghost also_owns = { λ s. box_owns (ghosts.dealloc_token s.alloc) the_row s.at s.value };
}

impl ModuleStatus {
    /// This status, of a call on the handle with this pointer.
    pub(crate) fn of(status: u32, loose: Loose<Held, Global>) -> ModuleStatus
        ensures status { result.status ≡ status }
        ensures at { result.at ≡ loose.at }
        ensures value { result.value ≡ loose.value }
    {
        let Loose { at: _, alloc } = loose;
        ModuleStatus { status, alloc }
    }
}
