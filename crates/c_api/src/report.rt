//! What C holds of an answer that its buffer was too short for: `gate_report` of gate.h.

ghost use Rattle.std.specs.Prelude.{◌≡◌, Option, Some};
ghost use Rattle.std.specs.Coded.{coded_option};
ghost use denote.RawPtr.{Ptr};
ghost use Rattle.std_alloc.specs.Box.Ownership.{box_owns};
ghost use Rattle.std.specs.contracts.impls.GlobalAllocator.TheImpl.{ghosts};
ghost use Rattle.c_api.specs.Slots.{slot_owns};
ghost use Rattle.c_api.specs.contracts.kept.Kept.{the_row};
ghost use Rattle.c_api.specs.declared.kept.Kept.{Kept};

use crate::kept::Kept;
use crate::loose::Loose;
use std::alloc::Global;
use std::marker::Model;

/// A handle that C passes: it owns the box of the answer.
#[repr(C)]
pub struct GateReport {
    at: *mut u8,
    alloc: Global,
    ghost value: { Kept },
}

const _: () = prove!(size_of::<GateReport>() == 8 && align_of::<GateReport>() == 8);

impl Model for GateReport {
    ghost also_owns = { λ h. box_owns (ghosts.dealloc_token h.alloc) the_row h.at h.value };
}

impl GateReport {
    /// The handle as a pointer of the box's own type.
    pub(crate) fn loose(self) -> Loose<Kept, Global>
        ensures at { result.at ≡ self.at }
        ensures value { result.value ≡ self.value }
    {
        let GateReport { at, alloc } = self;
        Loose {
            at: at as *mut Kept,
            alloc,
        }
    }
}

/// The slot of a handle that a call writes. What was there is never read; the handle that is written owns its box.
#[repr(C)]
#[derive(Drop)]
pub struct ReportSlot {
    at: *mut u8,
    alloc: Global,
    ghost value: { Option Kept } by { coded_option the_row.coded },
}

const _: () = prove!(size_of::<ReportSlot>() == 8 && align_of::<ReportSlot>() == 8);

impl Model for ReportSlot {
    ghost also_owns = { λ s. slot_owns (ghosts.dealloc_token s.alloc) the_row s.at s.value };
}

impl ReportSlot {
    /// A handle of the box at this pointer.
    pub(crate) fn tied(loose: Loose<Kept, Global>) -> ReportSlot
        ensures { result.value ≡ Some loose.value }
    {
        let Loose { at, alloc } = loose;
        ReportSlot {
            at: at as *mut u8,
            alloc,
        }
    }
}

/// The status of a call that leaves its handle alive: it owns the box that the handle owned. C sees a `uint32_t`, which comes back
/// in the same register as a struct of one.
#[repr(C)]
pub struct ReportStatus {
    status: u32,
    alloc: Global,
    ghost at: { Ptr },
    ghost value: { Kept },
}

const _: () = prove!(size_of::<ReportStatus>() == 4 && align_of::<ReportStatus>() == 4);

impl Model for ReportStatus {
    ghost also_owns = { λ s. box_owns (ghosts.dealloc_token s.alloc) the_row s.at s.value };
}

impl ReportStatus {
    /// This status, of a call on the handle with this pointer.
    pub(crate) fn of(status: u32, loose: Loose<Kept, Global>) -> ReportStatus
        ensures status { result.status ≡ status }
        ensures at { result.at ≡ loose.at }
        ensures value { result.value ≡ loose.value }
    {
        let Loose { at: _, alloc } = loose;
        ReportStatus { status, alloc }
    }
}
