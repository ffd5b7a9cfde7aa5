//! What C holds of an instance: `gate_instance` of gate.h.

ghost use Rattle.std.specs.Prelude.{◌≡◌, Option, Some};
ghost use Rattle.std.specs.Coded.{coded_option};
ghost use denote.RawPtr.{Ptr};
ghost use Rattle.std_alloc.specs.Box.Ownership.{box_owns};
ghost use Rattle.std.specs.contracts.impls.GlobalAllocator.TheImpl.{ghosts};
ghost use Rattle.c_api.specs.Slots.{slot_owns};
ghost use Rattle.c_api.specs.contracts.live.Live.{the_row};
ghost use Rattle.c_api.specs.declared.live.Live.{Live};

use crate::live::Live;
use crate::loose::Loose;
use std::alloc::Global;
use std::marker::Model;

/// A handle that C passes: it owns the box of the instance.
#[repr(C)]
pub struct GateInstance {
    at: *mut u8,
    alloc: Global,
    ghost value: { Live } by { the_row.coded },
}

const _: () = prove!(size_of::<GateInstance>() == 8 && align_of::<GateInstance>() == 8);

impl Model for GateInstance {
    ghost also_owns = { λ h. box_owns (ghosts.dealloc_token h.alloc) the_row h.at h.value };
}

impl GateInstance {
    /// The handle as a pointer of the box's own type.
    pub(crate) fn loose(self) -> Loose<Live, Global>
        ensures at { result.at ≡ self.at }
        ensures value { result.value ≡ self.value }
    {
        let GateInstance { at, alloc } = self;
        Loose {
            at: at as *mut Live,
            alloc,
        }
    }
}

/// The slot of a handle that a call writes. What was there is never read; the handle that is written owns its box.
#[repr(C)]
#[derive(Drop)]
pub struct InstanceSlot {
    at: *mut u8,
    alloc: Global,
    ghost value: { Option Live } by { coded_option the_row.coded },
}

const _: () = prove!(size_of::<InstanceSlot>() == 8 && align_of::<InstanceSlot>() == 8);

impl Model for InstanceSlot {
    ghost also_owns = { λ s. slot_owns (ghosts.dealloc_token s.alloc) the_row s.at s.value };
}

impl InstanceSlot {
    /// A handle of the box at this pointer.
    pub(crate) fn tied(loose: Loose<Live, Global>) -> InstanceSlot
        ensures { result.value ≡ Some loose.value }
    {
        let Loose { at, alloc } = loose;
        InstanceSlot {
            at: at as *mut u8,
            alloc,
        }
    }
}

/// The status of a call that leaves its handle alive: it owns the box that the handle owned. C sees a `uint32_t`, which comes back
/// in the same register as a struct of one.
#[repr(C)]
pub struct InstanceStatus {
    status: u32,
    alloc: Global,
    ghost at: { Ptr },
    ghost value: { Live } by { the_row.coded },
}

const _: () = prove!(size_of::<InstanceStatus>() == 4 && align_of::<InstanceStatus>() == 4);

impl Model for InstanceStatus {
    ghost also_owns = { λ s. box_owns (ghosts.dealloc_token s.alloc) the_row s.at s.value };
}

impl InstanceStatus {
    /// This status, of a call on the handle with this pointer.
    pub(crate) fn of(status: u32, loose: Loose<Live, Global>) -> InstanceStatus
        ensures status { result.status ≡ status }
        ensures at { result.at ≡ loose.at }
        ensures value { result.value ≡ loose.value }
    {
        let Loose { at: _, alloc } = loose;
        InstanceStatus { status, alloc }
    }
}
