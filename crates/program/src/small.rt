//! The modules that one worker judges alone.
ghost use Rattle.std.specs.Prelude.{length};

use crate::tuning::LARGE;
use pieces::{Job, JobFault};
use std::alloc::Global;
use std::sync::Wait;
use verdict::{Refusal, examine_alone};

/// Modules, of which each small one is judged by one worker. One index of the job is one module, and its result the
/// verdict, or `None` for a large one.
#[derive(Drop)]
pub(crate) struct SmallModules<'a> {
    pub(crate) alloc: Global,
    pub(crate) modules: &'a [&'a [u8]],
}

impl<'a> Job for SmallModules<'a> {
    type Local = ();

    type Out = Option<Result<(), Refusal>>;

    type Fault = ();

    ghost use Rattle.program.specs.Verdicts.{GivesVerdict};

    ghost limit = { λ j. length j.modules.now };

    ghost belongs = { λ j t. Unit {0} };

    ghost passes = { λ j i. Unit {0} };

    ghost gives = { λ j i out. GivesVerdict j.modules.now i out };

    ghost refuses = { λ j i f. ⊥ };

    fn run<R: Wait>(
        &self,
        _rt: &R,
        _local: &mut (),
        index: u32,
    ) -> Result<Option<Result<(), Refusal>>, JobFault<()>> {
        let bytes = self.modules[index as usize];
        if bytes.len() >= LARGE {
            return Ok(None);
        }
        Ok(Some(examine_alone(self.alloc, bytes)))
    }

    ghost never_both = { λ j i f p r. r };

    ghost one_fault = { λ j i f g r s. absurd r };
}
