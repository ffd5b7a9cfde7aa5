//! What stands behind a `gate_report`.

ghost use Rattle.std.specs.Prelude.{string_bytes};
ghost use Rattle.c_api.specs.Handles.{IsAnswered};

use crate::status::status_code;
use crate::text::hand_text;
use batch::Answer;

/// An answer.
#[derive(Drop)]
pub struct Kept {
    pub(crate) answer: Answer,
    pub(crate) ghost answered: { ∥ IsAnswered (string_bytes answer.text) answer.status ∥₁ },
}

impl Kept {
    ghost use Rattle.c_api.specs.Statuses.{code_of};
    ghost use Rattle.c_api.specs.Texts.{Hands};

    /// Writes the text, where there is room for it, and its length; the status of the answer, or that the buffer is short.
    pub(crate) fn hand(&self, out: &mut [u8], length: &mut usize) -> u32
        ensures { Hands (string_bytes self.now.answer.text) (code_of self.now.answer.status) out.old out.new length.new result }
    {
        let status = status_code(self.answer.status);
        hand_text(self.answer.text.as_bytes(), status, out, length)
    }
}
