ghost use Rattle.std.specs.Prelude.{◌≡◌};

use pieces::{JobFault, TryFault};
use std::alloc::{AllocError, AllocFailed};
use thiserror::Error;
use wcontext::ModuleFault;
use wdecode::DecodeFault;

/// Why a body is refused.
#[derive(Clone, Copy, Debug, PartialEq, Eq, Error)]
pub enum BodyRefusal {
    /// Its bytes spell no body.
    #[error("malformed")]
    Malformed,
    /// It declares more than 100,000 locals, parameters aside.
    #[error("too-many-locals")]
    TooManyLocals,
    /// It has no type. `at` is the position of the first token that no completion can save, from 0.
    #[error("ill-typed at {at}")]
    IllTyped { at: usize },
}

/// The first refusal of a module, in the order of judging.
#[derive(Clone, Copy, Debug, PartialEq, Eq, Error)]
pub enum Refusal {
    /// More than 16,777,216 bytes.
    #[error("too-large")]
    TooLarge,
    /// The bytes spell no module, the insides of bodies aside.
    #[error("malformed")]
    Malformed,
    /// The least broken module rule, from 2 to 13.
    #[error("rule {0}")]
    Rule(u32),
    /// The least function, imported ones counted first, whose body is refused.
    #[error("body {func} {refusal}")]
    Body { func: u32, refusal: BodyRefusal },
    /// A growth of memory was refused; nothing is said of the module.
    #[error("no memory")]
    Memory,
}

impl From<DecodeFault> for Refusal {
    ghost use Rattle.refusal.specs.Refusals.{of_decoding};

    ghost from_gives = { λ e r. r ≡ of_decoding e };

    fn from(fault: DecodeFault) -> Refusal {
        match fault {
            DecodeFault::TooLarge => Refusal::TooLarge,
            DecodeFault::Malformed => Refusal::Malformed,
            DecodeFault::Memory => Refusal::Memory,
        }
    }
}

impl From<ModuleFault> for Refusal {
    ghost use Rattle.refusal.specs.Refusals.{of_rules};

    ghost from_gives = { λ e r. r ≡ of_rules e };

    fn from(fault: ModuleFault) -> Refusal {
        match fault {
            ModuleFault::Rule(rule) => Refusal::Rule(rule),
            ModuleFault::Memory => Refusal::Memory,
        }
    }
}

impl From<AllocError> for Refusal {
    ghost use Rattle.refusal.specs.declared.refusal.Refusal.TheVariants.{Memory};

    ghost from_gives = { λ e r. r ≡ Memory };

    fn from(_: AllocError) -> Refusal {
        Refusal::Memory
    }
}

impl<T: Drop> From<AllocFailed<T>> for Refusal {
    ghost use Rattle.refusal.specs.declared.refusal.Refusal.TheVariants.{Memory};

    ghost from_gives = { λ _ r. r ≡ Memory };

    fn from(_: AllocFailed<T>) -> Refusal {
        Refusal::Memory
    }
}

impl From<TryFault<Refusal>> for Refusal {
    ghost use Rattle.refusal.specs.Refusals.{of_run};

    ghost from_gives = { λ e r. r ≡ of_run e };

    fn from(fault: TryFault<Refusal>) -> Refusal {
        match fault {
            TryFault::Stopped { fault, .. } => fault,
            TryFault::Memory => Refusal::Memory,
        }
    }
}

/// What a job says for it: its fault, but where memory was refused.
impl From<Refusal> for JobFault<Refusal> {
    ghost use Rattle.refusal.specs.Refusals.{in_job};

    ghost from_gives = { λ r e. e ≡ in_job r };

    fn from(refusal: Refusal) -> JobFault<Refusal> {
        match refusal {
            Refusal::Memory => JobFault::Memory,
            _ => JobFault::Refused(refusal),
        }
    }
}
