ghost use Rattle.std.specs.Prelude.{◌≡◌, ◌++◌, [], ◌∷◌, IfOk};
ghost use Rattle.batch_text.specs.Args.{args_of};

use std::alloc::{AllocError, Global};
use wsyntax::Value;

/// The arguments of a call. As most calls have few, up to two take no memory of their own.
// PERF: memory for each call's arguments was a quarter of a short call. A `smallvec` would want a default value.
#[derive(Drop)]
pub enum Args {
    Empty,
    One([Value; 1]),
    Two([Value; 2]),
    More(Vec<Value>),
}

impl Args {
    /// All of them in their order.
    pub fn as_slice(&self) -> &[Value]
        ensures { result.now ≡ args_of self.now }
    {
        match self {
            Args::Empty => &[],
            Args::One(one) => one,
            Args::Two(two) => two,
            Args::More(more) => more,
        }
    }

    /// These arguments, and one more after them.
    pub(crate) fn followed_by(self, alloc: Global, value: Value) -> Result<Args, AllocError>
        ensures { IfOk result (λ args. args_of args ≡ args_of self ++ value ∷ []) }
    {
        match self {
            Args::Empty => Ok(Args::One([value])),
            Args::One(one) => Ok(Args::Two([one[0], value])),
            Args::Two(two) => Ok(Args::More(vec![in alloc; two[0], two[1], value]?)),
            Args::More(more) => {
                let mut longer = more;
                longer.push(value)?;
                Ok(Args::More(longer))
            }
        }
    }
}
