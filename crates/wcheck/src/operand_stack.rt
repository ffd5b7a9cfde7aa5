ghost use Rattle.std.specs.Prelude.{◌≡◌, ◌≤◌, ◌<◌, ◌+◌, ◌^◌, List, [], ◌∷◌, ◌++◌, true, false, Option, Some};
ghost use Rattle.std.specs.Prelude.{IfSome, MatchOption, MatchResult, length, reverse, take, drop};
ghost use Rattle.wsyntax.specs.declared.ValType.{ValType};
ghost use Rattle.wsyntax.specs.Validation.Algorithm.{pop_any, pop_all, push_list, fresh, is_nil};
ghost use Rattle.wcontext.specs.Lists.{list_of, prefix_of};
ghost use Rattle.wcheck.specs.Heights.{all_of, topped, without, over, IsShortened, EndsIn};
ghost use Rattle.wcheck.specs.Runs.{last_types};

mod known;

use crate::entry::{
    StackEntry, end_in_singles, is_run, packed, shared_end, top_run, types_of_prefix, unpacked,
};
use crate::tuning::OPERAND_RUNS;
use std::alloc::{AllocError, Global};
use std::marker::Model;
use wcontext::{Context, TypeList, TypePrefix};
use wsyntax::ValType;

/// The types of the operands of all open frames, in one list. `None` is a type that is not known. A run takes one entry, so
/// it costs the same whatever its length.
#[derive(Drop)]
pub(crate) struct OperandStack<'a> {
    context: &'a Context,
    entries: Vec<StackEntry>,
    /// The run of each entry `Run`: the first types of a list, the last of them topmost.
    runs: Vec<TypePrefix>,
    /// How many more operands there are than entries.
    run_surplus: usize,
    /// How many operands lie below the innermost frame.
    base: usize,
    unreachable: bool,
}

impl<'a> Model for OperandStack<'a> {
    ghost use Rattle.wcheck.specs.Heights.{Stacked, stacked};
    ghost use Rattle.wcheck.specs.Runs.{items_of, IsStanding};

    ghost Value = { Stacked };

    ghost view = { λ p. stacked
        (items_of p.context.now.context.types p.entries.items p.runs.items)
        p.context.now.context.types
        p.base
        p.unreachable };

    ghost invariant = { λ p. IsStanding p.context.now.context.types p.entries.items p.runs.items p.run_surplus p.base };
}

/// The most operands in runs that there can be. No body of fewer than 2^31 tokens reaches it, for a token pushes fewer than
/// 2^32 operands.
const MOST: usize = 1 << 63;

impl<'a> OperandStack<'a> {
    pub(crate) fn new(alloc: Global, context: &'a Context) -> Self
        ensures { result ≡ record { below = []; above = fresh []; types = context.now.context.types } }
    {
        OperandStack {
            context,
            entries: Vec::new(alloc),
            runs: Vec::new(alloc),
            run_surplus: 0,
            base: 0,
            unreachable: false,
        }
    }

    /// Makes room for `entries` more entries, and for some runs.
    pub(crate) fn reserve_entries(&mut self, entries: usize) -> Result<(), AllocError>
        ensures { self.new ≡ self.old }
    {
        self.entries.reserve(entries)?;
        self.runs.reserve(OPERAND_RUNS)?;
        Ok(())
    }

    /// Forgets all operands and all frames but one.
    pub(crate) fn clear(&mut self)
        ensures { self.new ≡ record { below = []; above = fresh []; types = self.old.types } }
    {
        self.entries.clear();
        self.runs.clear();
        self.run_surplus = 0;
        self.base = 0;
        self.unreachable = false;
    }

    /// The operands in all frames.
    #[inline]
    pub(crate) fn height(&self) -> usize
        ensures { result ≡ length self.now.below + length self.now.above.known }
    {
        self.entries.len() + self.run_surplus
    }

    /// The operands below the innermost frame.
    #[inline]
    pub(crate) fn base(&self) -> usize
        ensures { result ≡ length self.now.below }
    {
        self.base
    }

    /// Whether the innermost frame has no operand that is known.
    #[inline]
    pub(crate) fn is_empty(&self) -> bool
        ensures { result ≡ is_nil self.now.above.known }
    {
        self.height() == self.base
    }

    /// Whether what follows in the innermost frame cannot be reached.
    #[inline]
    pub(crate) fn is_unreachable(&self) -> bool
        ensures { result ≡ self.now.above.is_dead }
    {
        self.unreachable
    }

    /// Whether any operands may be taken, and nothing is left of them: none is known, and the rest cannot be reached.
    #[inline]
    #[tactic(auto, using(crate::proofs::EmptyFrames::taken_dead))]
    pub(crate) fn gives_any(&self) -> bool
        ensures { result ≡ true → (ts : List ValType) → pop_all ts self.now.above ≡ Some self.now.above }
    {
        self.unreachable && self.is_empty()
    }

    /// The types of a list.
    #[inline]
    pub(crate) fn types_of(&self, list: TypeList) -> &'a [ValType]
        ensures types { result.now ≡ list_of self.now.types list }
        ensures few { length result.now < 2 ^ 32 }
    {
        self.context.list(list)
    }

    /// Removes the topmost entry, or what is too much of its run: some operands, but not more than `by`. Gives the type of the
    /// topmost operand.
    fn shorten(&mut self, by: usize) -> Option<ValType>
        requires some { 0 < by }
        requires there { by ≤ length self.old.above.known }
        ensures topmost { (rest : List (Option ValType)) × (all_of self.old ≡ rest ++ result ∷ []) }
        ensures above { IsShortened by self.old.above self.new.above }
        ensures below { self.new.below ≡ self.old.below }
        ensures types { self.new.types ≡ self.old.types }
    {
        let last = self.entries.len() - 1;
        let entry = self.entries[last];
        match top_run(self.context, entry, &self.runs) {
            None => {
                self.entries.truncate(last);
                unpacked(entry)
            }
            Some(types) => {
                let topmost = types.last().copied();
                let top = self.runs.len() - 1;
                if by < types.len() {
                    self.runs[top].count = (types.len() - by) as u32;
                    self.run_surplus -= by;
                } else {
                    self.entries.truncate(last);
                    self.runs.truncate(top);
                    self.run_surplus -= types.len().saturating_sub(1);
                }
                topmost
            }
        }
    }

    /// Only the lowest `height` operands are left, which are in the innermost frame or all below it.
    #[inline]
    pub(crate) fn truncate(&mut self, height: usize)
        requires { length self.old.below ≤ height }
        ensures above { self.new.above ≡ without (over height self.old) self.old.above }
        ensures below { self.new.below ≡ self.old.below }
        ensures types { self.new.types ≡ self.old.types }
    {
        if self.runs.is_empty() {
            self.entries.truncate(height);
        } else {
            self.truncate_runs(height);
        }
    }

    #[inline(never)]
    fn truncate_runs(&mut self, height: usize)
        requires { length self.old.below ≤ height }
        ensures above { self.new.above ≡ without (over height self.old) self.old.above }
        ensures below { self.new.below ≡ self.old.below }
        ensures types { self.new.types ≡ self.old.types }
    {
        while self.height() > height {
            let over = self.height() - height;
            let _topmost = self.shorten(over);
        }
    }

    /// Pushes an operand. After an error the stack is as before.
    #[inline]
    pub(crate) fn push(&mut self, x: Option<ValType>) -> Result<(), AllocError>
        ensures above { MatchResult result
            (λ _. self.new.above ≡ topped x self.old.above)
            (λ _. self.new.above ≡ self.old.above) }
        ensures below { self.new.below ≡ self.old.below }
        ensures types { self.new.types ≡ self.old.types }
    {
        self.entries.push(packed(x))?;
        Ok(())
    }

    /// Pushes operands of the `count` types of a list as one entry. After an error the stack is as before.
    pub(crate) fn push_run(&mut self, list: TypeList, count: usize) -> Result<(), AllocError>
        requires some { 0 < count }
        requires all { count ≡ length (list_of self.old.types list) }
        requires few { count < 2 ^ 32 }
        ensures above { MatchResult result
            (λ _. self.new.above ≡ push_list (reverse (list_of self.old.types list)) self.old.above)
            (λ _. self.new.above ≡ self.old.above) }
        ensures below { self.new.below ≡ self.old.below }
        ensures types { self.new.types ≡ self.old.types }
    {
        let run = TypePrefix {
            list,
            count: count as u32,
        };
        let run_surplus = self.run_surplus + (count - 1);
        if run_surplus > MOST {
            return Err(AllocError);
        }
        self.entries.push(StackEntry::Run)?;
        if self.runs.push(run).is_err() {
            self.entries.pop();
            return Err(AllocError);
        }
        self.run_surplus = run_surplus;
        Ok(())
    }

    /// Takes the topmost operand of the innermost frame.
    #[inline]
    pub(crate) fn pop_any(&mut self) -> Option<Option<ValType>>
        ensures above { MatchOption result
            (pop_any self.old.above ≡ None)
            (λ x. pop_any self.old.above ≡ Some (x, self.new.above)) }
        ensures below { self.new.below ≡ self.old.below }
        ensures types { self.new.types ≡ self.old.types }
    {
        if self.height() > self.base {
            Some(self.shorten(1))
        } else if self.unreachable {
            Some(None)
        } else {
            None
        }
    }

    /// Whether the last operands are known to be of these types, each in an entry of its own.
    #[inline]
    pub(crate) fn ends_in_singles(&self, ts: &[ValType]) -> bool
        ensures { result ≡ true → EndsIn ts.now self.now }
    {
        end_in_singles(&self.entries, ts)
    }

    /// How many operands of the run on top are the last types of a prefix: all that the shorter of both has, or none where
    /// no run is on top. `None`: not all of these are.
    #[inline(always)]
    pub(crate) fn ends_in_run(&self, prefix: TypePrefix) -> Option<usize>
        requires whole { prefix.count ≡ length (prefix_of self.now.types prefix) }
        ensures count { IfSome result (λ n. n ≤ length (prefix_of self.now.types prefix)) }
        ensures last { IfSome result (λ n. EndsIn (last_types n (prefix_of self.now.types prefix)) self.now) }
    {
        let Some(entry) = self.entries.last() else {
            return Some(0);
        };
        let Some(run) = self.runs.last() else {
            return Some(0);
        };
        if !is_run(*entry) {
            return Some(0);
        }
        shared_end(self.context, prefix, *run)
    }

    /// What follows cannot be reached: no operand is known, and any may be taken.
    #[inline]
    pub(crate) fn make_unreachable(&mut self)
        ensures above { self.new.above ≡ record { known = []; is_dead = true } }
        ensures below { self.new.below ≡ self.old.below }
        ensures types { self.new.types ≡ self.old.types }
    {
        self.truncate(self.base);
        self.unreachable = true;
    }

    /// Begins a frame with no operands.
    #[inline]
    pub(crate) fn open(&mut self)
        ensures above { self.new.above ≡ fresh [] }
        ensures below { self.new.below ≡ self.old.below ++ reverse self.old.above.known }
        ensures types { self.new.types ≡ self.old.types }
    {
        self.base = self.height();
        self.unreachable = false;
    }

    /// Begins the frame again, with no operands.
    #[inline]
    pub(crate) fn reset_frame(&mut self)
        ensures above { self.new.above ≡ fresh [] }
        ensures below { self.new.below ≡ self.old.below }
        ensures types { self.new.types ≡ self.old.types }
    {
        self.truncate(self.base);
        self.unreachable = false;
    }

    /// Goes back to the frame that began at this height.
    #[inline(always)]
    pub(crate) fn close(&mut self, base: usize, unreachable: bool)
        ensures above { self.new.above ≡ record { known = reverse (drop base self.old.below); is_dead = unreachable } }
        ensures below { self.new.below ≡ take base self.old.below }
        ensures types { self.new.types ≡ self.old.types }
    {
        self.truncate(self.base);
        self.base = self.base.min(base);
        self.unreachable = unreachable;
    }
}
