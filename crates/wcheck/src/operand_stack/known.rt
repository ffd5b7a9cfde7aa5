//! What an instruction does to operands that are known to be there, in place. Each answers `false` where they are not, and has
//! then done nothing: the general rules decide. One comparison of lengths tells whether they are above the innermost frame's
//! height, and a byte a type whether they fit.
ghost use Rattle.std.specs.Prelude.{◌≡◌, [], ◌∷◌, true, false, Some};
ghost use Rattle.wsyntax.specs.Validation.Algorithm.{Takes, Drops, apply, pop_one};

use super::OperandStack;
use crate::entry::{is_known, is_run, packed};
use wsyntax::ValType;

impl OperandStack<'_> {
    /// Takes the topmost operand, if it is known to be of this type.
    #[inline(always)]
    pub(crate) fn pop_known(&mut self, t: ValType) -> bool
        ensures above { result ≡ true → pop_one t self.old.above ≡ Some self.new.above }
        ensures others { result ≡ false → self.new.above ≡ self.old.above }
        ensures below { self.new.below ≡ self.old.below }
        ensures types { self.new.types ≡ self.old.types }
    {
        let count = self.entries.len();
        if count <= self.base || !is_known(self.entries[count - 1], t) {
            return false;
        }
        self.entries.truncate(count - 1);
        true
    }

    /// Takes the topmost operand, whatever its type, if it has an entry of its own.
    #[inline(always)]
    pub(crate) fn drop_known(&mut self) -> bool
        ensures above { result ≡ true → apply Drops self.old.above ≡ Some self.new.above }
        ensures others { result ≡ false → self.new.above ≡ self.old.above }
        ensures below { self.new.below ≡ self.old.below }
        ensures types { self.new.types ≡ self.old.types }
    {
        let count = self.entries.len();
        if count <= self.base || is_run(self.entries[count - 1]) {
            return false;
        }
        self.entries.truncate(count - 1);
        true
    }

    /// Writes the second type over that of the topmost operand, if that is known to be of the first.
    #[inline(always)]
    pub(crate) fn apply_unary_known(&mut self, t: ValType, u: ValType) -> bool
        ensures above { result ≡ true → apply (Takes (t ∷ []) (u ∷ [])) self.old.above ≡ Some self.new.above }
        ensures others { result ≡ false → self.new.above ≡ self.old.above }
        ensures below { self.new.below ≡ self.old.below }
        ensures types { self.new.types ≡ self.old.types }
    {
        let count = self.entries.len();
        if count <= self.base || !is_known(self.entries[count - 1], t) {
            return false;
        }
        self.entries[count - 1] = packed(Some(u));
        true
    }

    /// Puts an operand of the second type instead of the two topmost, if both are known to be of the first.
    #[inline(always)]
    pub(crate) fn apply_binary_known(&mut self, t: ValType, u: ValType) -> bool
        ensures above { result ≡ true → apply (Takes (t ∷ t ∷ []) (u ∷ [])) self.old.above ≡ Some self.new.above }
        ensures others { result ≡ false → self.new.above ≡ self.old.above }
        ensures below { self.new.below ≡ self.old.below }
        ensures types { self.new.types ≡ self.old.types }
    {
        let count = self.entries.len();
        if count < 2
            || count - 2 < self.base
            || !is_known(self.entries[count - 2], t)
            || !is_known(self.entries[count - 1], t)
        {
            return false;
        }
        self.entries.truncate(count - 1);
        self.entries[count - 2] = packed(Some(u));
        true
    }

    /// Takes the two topmost operands, if they are known to be of the first type and, below it, of the second.
    #[inline(always)]
    pub(crate) fn pop_two_known(&mut self, t: ValType, u: ValType) -> bool
        ensures above { result ≡ true → apply (Takes (t ∷ u ∷ []) []) self.old.above ≡ Some self.new.above }
        ensures others { result ≡ false → self.new.above ≡ self.old.above }
        ensures below { self.new.below ≡ self.old.below }
        ensures types { self.new.types ≡ self.old.types }
    {
        let count = self.entries.len();
        if count < 2
            || count - 2 < self.base
            || !is_known(self.entries[count - 2], u)
            || !is_known(self.entries[count - 1], t)
        {
            return false;
        }
        self.entries.truncate(count - 2);
        true
    }

    /// Puts an operand of this type on top. `false`: memory was refused.
    #[inline(always)]
    pub(crate) fn push_known(&mut self, t: ValType) -> bool
        ensures above { result ≡ true → apply (Takes [] (t ∷ [])) self.old.above ≡ Some self.new.above }
        ensures others { result ≡ false → self.new.above ≡ self.old.above }
        ensures below { self.new.below ≡ self.old.below }
        ensures types { self.new.types ≡ self.old.types }
    {
        self.push(Some(t)).is_ok()
    }
}
