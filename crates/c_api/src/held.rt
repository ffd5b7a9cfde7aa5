//! What stands behind a `gate_module`.

ghost use Rattle.c_api.specs.Handles.{IsOfBytes};

use crate::sending::sendable;
use std::alloc::Global;
use std::sync::Arc;
use verdict::Accepted;

/// An accepted module, whose bytes stay for as long as C holds it. Other handles may hold it too.
#[derive(Drop)]
pub struct Held {
    pub(crate) accepted: Arc<Accepted<'static>, Global>,
    pub(crate) ghost of_bytes: { ∥ IsOfBytes accepted.value ∥₁ },
}

impl Held {
    ghost use Rattle.std.specs.Prelude.{◌≡◌, IfSome};

    /// An accepted module in a box; `None` where memory was refused.
    pub(crate) fn sole_owner(alloc: Global, accepted: Accepted<'static>) -> Option<Box<Held>>
        requires { IsOfBytes accepted }
        ensures { IfSome result (λ b. b.value.accepted.value ≡ accepted.entry) }
    {
        let Ok(accepted) = Arc::new(alloc, accepted) else {
            return None;
        };
        Box::new(alloc, sendable(Held { accepted })).ok()
    }

    /// Another owner of the same module, in a box of its own; `None` where memory was refused.
    pub(crate) fn another(&self, alloc: Global) -> Option<Box<Held>>
        ensures { IfSome result (λ b. b.value.accepted.value ≡ self.now.accepted.value) }
    {
        let Ok(accepted) = Arc::try_clone(&self.accepted) else {
            return None;
        };
        Box::new(alloc, sendable(Held { accepted })).ok()
    }
}
