//! What a checker knows between two tokens, for a reader who asks why the next one is refused. No check of a body asks.
ghost use Rattle.std.specs.Prelude.{◌≡◌, [], MatchOption, drop, reverse, option_map, slice_get};
ghost use Rattle.wsyntax.specs.Modules.{decoded_as};
ghost use Rattle.wsyntax.specs.Validation.Context.{block_sig};
ghost use Rattle.wsyntax.specs.Validation.Algorithm.{context_in};
ghost use Rattle.wcontext.specs.Lists.{pair_type};
ghost use Rattle.wcheck.specs.Checking.{with_frames};
ghost use Rattle.wcheck.specs.OperandRules.{rule_of};
ghost use Rattle.wcheck.specs.Views.{token_rule};
ghost use Rattle.wcheck.specs.Inspected.{IsInnermost, TakesOperand, SharesSpaces, labels_of};

use super::Checker;
use crate::frames::{label_at, label_of_frame};
use crate::rule::{OperandRule, rule_of_token};
use crate::scope::block_signature;
use wcontext::{Context, ListPair};
use wsyntax::{BlockType, Token, ValType};

/// The innermost open frame (7.3), its operands apart.
#[derive(Clone, Copy)]
pub struct OpenFrame<'a> {
    /// Whether it is an if whose else may still come.
    pub is_then: bool,
    /// What a branch to it takes.
    pub label: &'a [ValType],
    pub starts: &'a [ValType],
    pub gives: &'a [ValType],
    /// How many operands are known above its base.
    pub height: usize,
    /// Whether what follows in it cannot be reached.
    pub is_unreachable: bool,
}

impl<'a> Checker<'a> {
    /// The context of the module.
    pub fn context(&self) -> &'a Context
        ensures outside { result.now.context ≡ self.now.outside }
        ensures inside { SharesSpaces self.now.outside self.now.inside }
    {
        self.scope.context
    }

    /// The innermost open frame; `None` after the end of the body.
    pub fn innermost(&self) -> Option<OpenFrame<'a>>
        ensures { MatchOption result (self.now.frames ≡ []) (IsInnermost self.now.frames) }
    {
        if !self.control.is_open {
            return None;
        }
        let context = self.scope.context;
        let top = self.control.top;
        Some(OpenFrame {
            is_then: top.is_if,
            label: context.list(label_of_frame(top)),
            starts: context.list(top.start_types),
            gives: context.list(top.end_types),
            height: self.control.operands.height() - self.control.operands.base(),
            is_unreachable: self.control.operands.is_unreachable(),
        })
    }

    /// Takes the topmost operand of the innermost frame, whatever its type: `Some(None)` is one whose type is not known. `None`:
    /// there is none.
    pub fn pop_operand(&mut self) -> Option<Option<ValType>>
        ensures taken { TakesOperand self.old.frames self.new.frames result }
        ensures same { self.new ≡ with_frames self.old self.new.frames }
    {
        if !self.control.is_open {
            return None;
        }
        if self.control.operands.is_empty() && !self.control.operands.is_unreachable() {
            return None;
        }
        self.control.operands.pop_any()
    }

    /// Leaves the innermost frame, with its operands.
    pub fn leave(&mut self)
        ensures left { self.new.frames ≡ drop 1 self.old.frames }
        ensures same { self.new ≡ with_frames self.old self.new.frames }
    {
        match self.control.outer.pop() {
            Some(outer) => {
                self.control.operands.close(outer.height, outer.unreachable);
                self.control.top = outer.frame;
            }
            None => self.control.is_open = false,
        }
    }

    /// What an instruction without a body takes from the operands and leaves there, if what it names is there; `None` at the
    /// other tokens.
    pub fn rule(&self, token: Token, targets: &[u32]) -> Option<OperandRule>
        requires { self.now.frames ≡ [] → ⊥ }
        ensures { option_map (rule_of self.now.outside.types) result
            ≡ token_rule (context_in self.now.inside self.now.frames) (decoded_as targets.now token) }
    {
        rule_of_token(
            &self.scope,
            self.control.top,
            &self.control.outer,
            targets,
            token,
        )
    }

    /// The type of the local of that index; `None` past the last.
    pub fn local(&self, x: u32) -> Option<ValType>
        ensures { result ≡ slice_get self.now.inside.locals x }
    {
        self.scope.locals.get(x)
    }

    /// What a branch to that label takes; `None` past the outermost frame.
    pub fn label(&self, l: u32) -> Option<&'a [ValType]>
        ensures { option_map (λ t. reverse t.now) result ≡ slice_get (labels_of self.now.frames) l }
    {
        if !self.control.is_open {
            return None;
        }
        match label_at(self.control.top, &self.control.outer, l) {
            Some(list) => Some(self.scope.context.list(list)),
            None => None,
        }
    }

    /// The function type that a block type stands for; `None` where it names none.
    pub fn block_lists(&self, block: BlockType) -> Option<ListPair>
        ensures { option_map (pair_type self.now.outside.types) result ≡ block_sig self.now.outside.types block }
    {
        block_signature(self.scope.context, block)
    }
}
