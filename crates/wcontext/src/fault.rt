ghost use Rattle.std.specs.Prelude.{◌≡◌};
ghost use Rattle.wcontext.specs.declared.fault.ModuleFault.TheVariants.{Memory};
ghost use Rattle.wcontext.specs.declared.fault.NoTree.TheVariants as no_tree;

use std::alloc::{AllocError, AllocFailed};
use thiserror::Error;

/// Why a module has no context.
#[derive(Clone, Copy, Debug, PartialEq, Eq, Error)]
pub enum ModuleFault {
    /// The least number of a rule that is broken, from 2 on.
    #[error("rule {0} is broken")]
    Rule(u32),
    #[error("out of memory")]
    Memory,
}

impl From<AllocError> for ModuleFault {
    ghost from_gives = { λ _ e. e ≡ Memory };

    fn from(_error: AllocError) -> ModuleFault {
        ModuleFault::Memory
    }
}

/// Why long lists have no tree.
#[derive(Clone, Copy)]
pub(crate) enum NoTree {
    /// A growth was refused.
    Memory,
    /// They have more prefixes than there are numbers for, which no module within its length has.
    TooMany,
}

impl From<AllocError> for NoTree {
    ghost from_gives = { λ _ e. e ≡ no_tree.Memory };

    fn from(_error: AllocError) -> NoTree {
        NoTree::Memory
    }
}

impl<T: Drop> From<AllocFailed<T>> for NoTree {
    ghost from_gives = { λ _ e. e ≡ no_tree.Memory };

    fn from(_error: AllocFailed<T>) -> NoTree {
        NoTree::Memory
    }
}
