//! What an instruction does to several operands at once, in the innermost frame (7.3).
ghost use Rattle.std.specs.Prelude.{◌≡◌, ◌≤◌, ◌<◌, ◌-◌, ◌^◌, [], ◌∷◌, true, false, Some};
ghost use Rattle.std.specs.Prelude.{IfSome, IfNone, IfOk, reverse, length};
ghost use Rattle.wcontext.specs.Lists.{list_of, prefix_of};
ghost use Rattle.wsyntax.specs.Validation.Algorithm.{Takes, when, apply, pop_one, pop_all, push_list, ends_with};
ghost use Rattle.wcheck.specs.Runs.{types_before};

use crate::operand_stack::OperandStack;
use crate::tuning::SHORT_LIST;
use crate::types::is_same;
use std::alloc::AllocError;
use wcontext::{TypeList, TypePrefix};
use wsyntax::ValType;

impl OperandStack<'_> {
    /// Takes the topmost operand, if it may be of this type.
    #[inline]
    pub(crate) fn pop_one(&mut self, t: ValType) -> bool
        ensures above { pop_one t self.old.above ≡ when result (Some self.new.above) }
        ensures below { self.new.below ≡ self.old.below }
        ensures types { self.new.types ≡ self.old.types }
    {
        self.pop_known(t) || self.pop_fitting(t)
    }

    /// Takes the topmost operand, if it may be of this type, which is seldom another or unknown.
    #[inline(never)]
    fn pop_fitting(&mut self, t: ValType) -> bool
        ensures above { pop_one t self.old.above ≡ when result (Some self.new.above) }
        ensures below { self.new.below ≡ self.old.below }
        ensures types { self.new.types ≡ self.old.types }
    {
        match self.pop_any() {
            None => false,
            Some(None) => true,
            Some(Some(u)) => is_same(u, t),
        }
    }

    /// Takes an operand of the first type, and puts one of the second.
    #[inline]
    pub(crate) fn apply_unary(&mut self, t: ValType, u: ValType) -> Result<bool, AllocError>
        ensures above { IfOk result (λ yes. apply (Takes (t ∷ []) (u ∷ [])) self.old.above ≡ when yes (Some self.new.above)) }
        ensures below { self.new.below ≡ self.old.below }
        ensures types { self.new.types ≡ self.old.types }
    {
        if self.apply_unary_known(t, u) {
            Ok(true)
        } else {
            self.apply_unary_fitting(t, u)
        }
    }

    #[inline(never)]
    fn apply_unary_fitting(&mut self, t: ValType, u: ValType) -> Result<bool, AllocError>
        ensures above { IfOk result (λ yes. apply (Takes (t ∷ []) (u ∷ [])) self.old.above ≡ when yes (Some self.new.above)) }
        ensures below { self.new.below ≡ self.old.below }
        ensures types { self.new.types ≡ self.old.types }
    {
        if !self.pop_fitting(t) {
            return Ok(false);
        }
        self.push(Some(u))?;
        Ok(true)
    }

    /// Takes two operands of the first type, and puts one of the second.
    #[inline]
    pub(crate) fn apply_binary(&mut self, t: ValType, u: ValType) -> Result<bool, AllocError>
        ensures above { IfOk result (λ yes. apply (Takes (t ∷ t ∷ []) (u ∷ [])) self.old.above ≡ when yes (Some self.new.above)) }
        ensures below { self.new.below ≡ self.old.below }
        ensures types { self.new.types ≡ self.old.types }
    {
        if self.apply_binary_known(t, u) {
            Ok(true)
        } else {
            self.apply_binary_fitting(t, u)
        }
    }

    #[inline(never)]
    fn apply_binary_fitting(&mut self, t: ValType, u: ValType) -> Result<bool, AllocError>
        ensures above { IfOk result (λ yes. apply (Takes (t ∷ t ∷ []) (u ∷ [])) self.old.above ≡ when yes (Some self.new.above)) }
        ensures below { self.new.below ≡ self.old.below }
        ensures types { self.new.types ≡ self.old.types }
    {
        if !self.pop_one(t) {
            return Ok(false);
        }
        if !self.pop_one(t) {
            return Ok(false);
        }
        self.push(Some(u))?;
        Ok(true)
    }

    /// Takes an operand of the first type, and below it one of the second.
    #[inline]
    pub(crate) fn pop_two(&mut self, t: ValType, u: ValType) -> bool
        ensures above { apply (Takes (t ∷ u ∷ []) []) self.old.above ≡ when result (Some self.new.above) }
        ensures below { self.new.below ≡ self.old.below }
        ensures types { self.new.types ≡ self.old.types }
    {
        self.pop_two_known(t, u) || self.pop_two_fitting(t, u)
    }

    #[inline(never)]
    fn pop_two_fitting(&mut self, t: ValType, u: ValType) -> bool
        ensures above { apply (Takes (t ∷ u ∷ []) []) self.old.above ≡ when result (Some self.new.above) }
        ensures below { self.new.below ≡ self.old.below }
        ensures types { self.new.types ≡ self.old.types }
    {
        self.pop_one(t) && self.pop_one(u)
    }

    /// Takes operands of the types of a list, the last first.
    #[inline]
    pub(crate) fn pop_all(&mut self, list: TypeList) -> bool
        ensures above { pop_all (reverse (list_of self.old.types list)) self.old.above ≡ when result (Some self.new.above) }
        ensures below { self.new.below ≡ self.old.below }
        ensures types { self.new.types ≡ self.old.types }
    {
        match list {
            TypeList::Nothing => true,
            TypeList::One(t) => self.pop_one(t),
            TypeList::Params(_) | TypeList::Results(_) => self.pop_list(list),
        }
    }

    /// Takes operands of the last types of a prefix, as many as it shares with the run on top: none where no run is there.
    /// `None`: nothing was taken, since the run has other types.
    fn pop_run(&mut self, prefix: TypePrefix) -> Option<usize>
        requires whole { prefix.count ≡ length (prefix_of self.old.types prefix) }
        ensures count { IfSome result (λ n. n ≤ length (prefix_of self.old.types prefix)) }
        ensures taken { IfSome result (λ n. pop_all (reverse (prefix_of self.old.types prefix)) self.old.above
            ≡ pop_all (reverse (types_before n (prefix_of self.old.types prefix))) self.new.above) }
        ensures others { IfNone result (self.new.above ≡ self.old.above) }
        ensures below { self.new.below ≡ self.old.below }
        ensures types { self.new.types ≡ self.old.types }
    {
        let count = self.ends_in_run(prefix)?;
        let height = self.height();
        if height - self.base() < count {
            return None;
        }
        self.truncate(height - count);
        Some(count)
    }

    /// Takes operands of these types at once, where each is known.
    #[inline]
    fn pop_all_known(&mut self, ts: &[ValType]) -> bool
        ensures taken { result ≡ true → pop_all (reverse ts.now) self.old.above ≡ Some self.new.above }
        ensures others { result ≡ false → self.new.above ≡ self.old.above }
        ensures below { self.new.below ≡ self.old.below }
        ensures types { self.new.types ≡ self.old.types }
    {
        let height = self.height();
        if height - self.base() < ts.len() {
            return false;
        }
        if !self.ends_in_singles(ts) {
            return false;
        }
        self.truncate(height - ts.len());
        true
    }

    /// Takes operands of these types, the last first, one by one.
    #[inline(never)]
    fn pop_one_by_one(&mut self, ts: &[ValType]) -> bool
        ensures above { pop_all (reverse ts.now) self.old.above ≡ when result (Some self.new.above) }
        ensures below { self.new.below ≡ self.old.below }
        ensures types { self.new.types ≡ self.old.types }
    {
        let mut i = ts.len();
        while i > 0 {
            i -= 1;
            if !self.pop_one(ts[i]) {
                return false;
            }
        }
        true
    }

    /// Takes operands of the types of a list, the last first.
    #[inline(never)]
    fn pop_list(&mut self, list: TypeList) -> bool
        ensures above { pop_all (reverse (list_of self.old.types list)) self.old.above ≡ when result (Some self.new.above) }
        ensures below { self.new.below ≡ self.old.below }
        ensures types { self.new.types ≡ self.old.types }
    {
        if self.gives_any() {
            return true;
        }
        let ts = self.types_of(list);
        if ts.len() <= SHORT_LIST {
            return self.pop_all_known(ts) || self.pop_one_by_one(ts);
        }
        self.pop_long_list(list, ts)
    }

    /// Takes operands of the types of a list, which are these, the last first. Once none is known, no more is read, and what
    /// the list shares with a run is taken at once. The types of a run that does not fit are compared one by one.
    #[inline(never)]
    #[tactic(auto, using(crate::proofs::EmptyFrames::taken_empty))]
    fn pop_long_list(&mut self, list: TypeList, ts: &[ValType]) -> bool
        requires types { ts.now ≡ list_of self.old.types list }
        requires few { length ts.now < 2 ^ 32 }
        ensures above { pop_all (reverse (list_of self.old.types list)) self.old.above ≡ when result (Some self.new.above) }
        ensures below { self.new.below ≡ self.old.below }
        ensures types { self.new.types ≡ self.old.types }
    {
        let mut left = ts.len();
        while left > SHORT_LIST {
            if self.is_empty() {
                return self.is_unreachable();
            }
            let count = left as u32;
            let Some(taken) = self.pop_run(TypePrefix { list, count }) else {
                break;
            };
            if taken > 0 {
                left -= taken;
            } else {
                left -= 1;
                if !self.pop_one(ts[left]) {
                    return false;
                }
            }
        }
        self.pop_one_by_one(&ts[..left])
    }

    /// Puts operands of the types of a list, the last one topmost.
    #[inline(always)]
    pub(crate) fn push_list(&mut self, list: TypeList) -> Result<(), AllocError>
        ensures above { IfOk result (λ _. self.new.above ≡ push_list (reverse (list_of self.old.types list)) self.old.above) }
        ensures below { self.new.below ≡ self.old.below }
        ensures types { self.new.types ≡ self.old.types }
    {
        match list {
            TypeList::Nothing => Ok(()),
            TypeList::One(_) | TypeList::Params(_) | TypeList::Results(_) => self.push_some(list),
        }
    }

    /// Puts operands of the types of a list that has some.
    #[inline(never)]
    fn push_some(&mut self, list: TypeList) -> Result<(), AllocError>
        ensures above { IfOk result (λ _. self.new.above ≡ push_list (reverse (list_of self.old.types list)) self.old.above) }
        ensures below { self.new.below ≡ self.old.below }
        ensures types { self.new.types ≡ self.old.types }
    {
        match list {
            TypeList::Nothing => Ok(()),
            TypeList::One(t) => self.push(Some(t)),
            TypeList::Params(_) | TypeList::Results(_) => self.push_several(list),
        }
    }

    /// Puts operands of the types of a list, a long one as a run.
    #[inline(never)]
    fn push_several(&mut self, list: TypeList) -> Result<(), AllocError>
        ensures above { IfOk result (λ _. self.new.above ≡ push_list (reverse (list_of self.old.types list)) self.old.above) }
        ensures below { self.new.below ≡ self.old.below }
        ensures types { self.new.types ≡ self.old.types }
    {
        let ts = self.types_of(list);
        if ts.len() > SHORT_LIST {
            self.push_run(list, ts.len())?;
            return Ok(());
        }
        for t in ts {
            self.push(Some(*t))?;
        }
        Ok(())
    }

    /// Whether the operands are exactly these, which are taken.
    #[inline(always)]
    pub(crate) fn ends_with(&mut self, list: TypeList) -> bool
        ensures answer { result ≡ ends_with (reverse (list_of self.old.types list)) self.old.above }
        ensures below { self.new.below ≡ self.old.below }
        ensures types { self.new.types ≡ self.old.types }
    {
        self.pop_all(list) && self.is_empty()
    }
}
