//! What stands behind a `gate_instance`.

ghost use Rattle.std.specs.Prelude.{◌≡◌, IfSome};
ghost use Rattle.wstore.specs.Detached.{IsDetached, IsInstanceOf};

use std::alloc::Global;
use std::sync::Arc;
use verdict::Accepted;
use wstore::{Detached, Instance, Settings};

/// An instance that C keeps, with its module, which other handles may hold too. The module's bytes stay for as long.
#[derive(Drop)]
pub struct Live {
    pub(crate) accepted: Arc<Accepted<'static>, Global>,
    /// The limits that it was made with.
    pub(crate) settings: Settings,
    /// The instance without its module. `None` where the last reset made none.
    pub(crate) state: Option<Detached>,
    pub(crate) ghost held: { ∥ IfSome state (IsInstanceOf accepted.value) ∥₁ },
}

impl Live {
    /// The module with an instance of it, or without one.
    pub(crate) fn of(
        accepted: Arc<Accepted<'static>, Global>,
        settings: Settings,
        state: Option<Detached>,
    ) -> Live
        requires { IfSome state (IsInstanceOf accepted.value) }
        ensures accepted { result.accepted.value ≡ accepted.entry.value }
        ensures settings { result.settings ≡ settings }
        ensures state { result.state ≡ state }
    {
        Live {
            accepted,
            settings,
            state,
        }
    }
}

/// The instance with the module that stands in this owner.
pub(crate) fn attached<'a>(
    accepted: &'a Arc<Accepted<'static>, Global>,
    state: Detached,
) -> Instance<'a>
    requires { IsInstanceOf accepted.now.value state }
    ensures same { IsDetached result state }
    ensures of { result.accepted.now ≡ accepted.now.value }
{
    state.attach(accepted)
}
