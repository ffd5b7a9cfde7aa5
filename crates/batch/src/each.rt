//! The calls of a batch one by one.

ghost use Rattle.std.specs.Prelude.{length};

use crate::runner::Runner;
use batch_text::{Call, Line};
use memory::{Pool, Ticket};
use pieces::{Job, JobFault, Stage, Watch};
use std::sync::Wait;

/// The calls of a batch. One index of the job is one call. The pool is asked only where the module has a memory.
#[derive(Drop)]
pub(crate) struct EachCall<'a, 'w, W> {
    pub(crate) runner: Runner<'a>,
    pub(crate) pool: &'a Pool,
    pub(crate) calls: &'a [Call<'a>],
    pub(crate) watch: &'w W,
}

impl<'a, 'w, W: Watch> Job for EachCall<'a, 'w, W> {
    type Local = Ticket;

    type Out = Line;

    type Fault = ();

    ghost use Rattle.memory.specs.Pools.{IsTicketOf};
    ghost use Rattle.batch.specs.Ends.{GivesLineAt};

    ghost limit = { λ j. length j.calls.now };

    ghost belongs = { λ j t. IsTicketOf j.pool.now t };

    ghost passes = { λ j i. Unit {0} };

    ghost gives = { λ j i line. GivesLineAt j.runner.accepted.now j.runner.settings j.calls.now i line };

    ghost refuses = { λ j i f. ⊥ };

    fn run<R: Wait>(&self, rt: &R, ticket: &mut Ticket, index: u32) -> Result<Line, JobFault<()>> {
        self.watch.note(Stage::Call, index);
        let call = &self.calls[index as usize];
        let function = match self.runner.callee(call) {
            Ok(function) => function,
            Err(line) => return Ok(line),
        };
        let clean = self.runner.lend(rt, self.pool, ticket);
        self.watch.lent(index, clean.len());
        let (line, clean) = self.runner.line(call, function, clean);
        self.runner.give_back(rt, self.pool, ticket, clean);
        Ok(line)
    }

    ghost never_both = { λ j i f p r. r };

    ghost one_fault = { λ j i f g r s. absurd r };
}
