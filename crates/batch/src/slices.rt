//! The slices of a text of calls.

ghost use Rattle.std.specs.Prelude.{length};

use batch_text::{Call, CallsFault, read_calls};
use pieces::{Job, JobFault};
use soundness::texts::one_calls;
use std::alloc::Global;
use std::sync::Wait;

/// The slices of a text of calls. One index of the job is one slice, and its result the calls that the slice says.
#[derive(Drop)]
pub(crate) struct Slices<'t, 's> {
    pub(crate) alloc: Global,
    pub(crate) slices: &'s [&'t [u8]],
}

impl<'t, 's> Job for Slices<'t, 's> {
    type Local = ();

    type Out = Vec<Call<'t>>;

    type Fault = ();

    ghost use Rattle.batch.specs.Slices.{SaysCalls, GivesCalls};

    ghost limit = { λ j. length j.slices.now };

    ghost belongs = { λ j t. Unit {0} };

    ghost passes = { λ j i. SaysCalls j.slices.now i };

    ghost gives = { λ j i calls. GivesCalls j.slices.now i calls };

    ghost refuses = { λ j i f. SaysCalls j.slices.now i → ⊥ };

    fn run<R: Wait>(
        &self,
        _rt: &R,
        _local: &mut (),
        index: u32,
    ) -> Result<Vec<Call<'t>>, JobFault<()>> {
        one_calls();
        match read_calls(self.alloc, self.slices[index as usize]) {
            Ok(calls) => Ok(calls),
            Err(CallsFault::TooLarge | CallsFault::Line(_)) => Err(JobFault::Refused(())),
            Err(CallsFault::Memory) => Err(JobFault::Memory),
        }
    }

    ghost never_both = { λ j i f p r. r p };

    ghost one_fault = { λ j i f h r s. Rattle.std.specs.Prelude.refl };
}
