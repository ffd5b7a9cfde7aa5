//! An ill-typed token, and what is told of it.

use explanation::{Cause, FoundToken, IllTypedToken, Typing};

/// How many operands a list in a sentence has at most.
const LISTED: usize = 4;

/// An ill-typed token.
#[derive(Clone, Copy)]
pub struct RefusedToken<'a> {
    /// Its position in its body.
    pub(crate) position: usize,
    pub(crate) found: &'a FoundToken,
    pub(crate) typing: Option<&'a Typing>,
    pub(crate) cause: Option<&'a Cause>,
    /// The name of the function that it calls.
    pub(crate) callee: Option<&'a [u8]>,
}

impl<'a> RefusedToken<'a> {
    /// One that calls no function whose name is known.
    pub fn of(token: &'a IllTypedToken) -> Self {
        RefusedToken {
            position: token.position,
            found: &token.found,
            typing: Some(&token.typing),
            cause: token.cause.as_ref(),
            callee: None,
        }
    }

    /// Whether lists of what it takes and of what it finds tell why it is refused: both are short, and each type is known that it
    /// finds.
    pub(crate) fn is_told_by_lists(self) -> bool {
        match (self.cause, self.typing) {
            (Some(Cause::Operand { .. }), Some(typing)) => {
                typing.takes.len() <= LISTED
                    && typing.finds.len() <= LISTED
                    && typing.finds.iter().all(|operand| operand.is_some())
            }
            _ => false,
        }
    }
}
