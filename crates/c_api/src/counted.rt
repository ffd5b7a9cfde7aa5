//! A number that is told of a module.

ghost use Rattle.std.specs.Prelude.{◌≡◌};
ghost use denote.RawPtr.{Ptr};
ghost use Rattle.std_alloc.specs.Box.Ownership.{box_owns};
ghost use Rattle.std.specs.contracts.impls.GlobalAllocator.TheImpl.{ghosts};
ghost use Rattle.c_api.specs.contracts.held.Held.{the_row};
ghost use Rattle.c_api.specs.declared.held.Held.{Held};

use crate::held::Held;
use crate::loose::Loose;
use std::alloc::Global;
use std::marker::Model;

/// A number that a call tells which leaves its handle alive: it owns the box that the handle owned. C sees a `uint64_t`, which comes
/// back in the same register as a struct of one.
#[repr(C)]
pub struct ModuleCount {
    count: u64,
    alloc: Global,
    ghost at: { Ptr },
    ghost value: { Held } by { the_row.coded },
}

const _: () = prove!(size_of::<ModuleCount>() == 8 && align_of::<ModuleCount>() == 8);

impl Model for ModuleCount {
    ghost also_owns = { λ s. box_owns (ghosts.dealloc_token s.alloc) the_row s.at s.value };
}

impl ModuleCount {
    /// This number, of a call on the handle with this pointer.
    pub(crate) fn of(count: u64, loose: Loose<Held, Global>) -> ModuleCount
        ensures count { result.count ≡ count }
        ensures at { result.at ≡ loose.at }
        ensures value { result.value ≡ loose.value }
    {
        let Loose { at: _, alloc } = loose;
        ModuleCount { count, alloc }
    }
}
