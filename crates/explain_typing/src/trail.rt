//! Which tokens opened the open blocks, and which gave their operands: kept while a body is checked anew.
//!
//! Of a token only the offset of its bytes is kept, four bytes, and it is read again where it is told. So what is kept of the blocks
//! and operands of a body is little beside what the checker has of them.
ghost use Rattle.std.specs.Prelude.{◌≡◌, ◌+◌, ◌-◌, ℕ, List, [], IfOk, IfSome, Some, length, reverse, slice_get};
ghost use Rattle.wsyntax.specs.Modules.{decoded_as};
ghost use Rattle.explain_typing.specs.Typed.{AreOpenAfter, AreOutermost, IsOpening, KeepsCode, opcode_of, opened_after, opened_by};

use explain_bytes::offset_of;
use explanation::{BlockKind, Giver, OpenBlocks, Opening};
use std::alloc::{AllocError, Global};
use wcheck::Checker;
use wdecode::{Fault, locals_at, op, token_at};
use wsyntax::{Token, ValType};

/// How many open blocks are told of a body that ends in them.
const BLOCKS: usize = 8;

/// Of how many operands it is told which tokens gave them.
const GIVEN: usize = 64;

/// Operands side by side that one token gave.
#[derive(Clone, Copy)]
struct GivenRun {
    /// How many operands lie below them, of all open blocks.
    below: usize,
    /// The position of the token.
    position: u32,
    /// Where it begins in the code; of the `end` of a block where the token begins that opened it.
    at: u32,
}

/// The operands that are known, with the tokens that gave them.
#[derive(Drop)]
struct GivenRuns {
    /// How many tokens were passed.
    passed: u32,
    held: Vec<GivenRun>,
    /// How many operands are known, of all open blocks.
    height: usize,
    /// And of the innermost.
    known: usize,
}

/// The blocks that are open, and the operands that are known, with the tokens that they are of.
#[derive(Drop)]
pub(crate) struct Trail<'a> {
    /// The bytes after the locals of the body.
    code: &'a [u8],
    /// The offset of the first of them in the module.
    start: usize,
    /// Where the token that opened a block begins in the code, the innermost last.
    opened: Vec<u32>,
    given: GivenRuns,
}

/// How many operands of its own the next token puts, a block or its second branch apart. Those that a `br_if` takes and puts again
/// stay those of others.
#[inline(always)]
pub(crate) fn puts(checker: &Checker<'_>, token: Token) -> usize {
    match token {
        Token::End => match checker.innermost() {
            Some(frame) => frame.gives.len(),
            None => 0,
        },
        Token::Call(func) => match checker.context().function(func) {
            Some(signature) => signature.results.len(),
            None => 0,
        },
        Token::CallIndirect(index) => match checker.context().signature(index) {
            Some(signature) => signature.results.len(),
            None => 0,
        },
        Token::Unreachable
        | Token::Nop
        | Token::Br(_)
        | Token::BrIf(_)
        | Token::BrTable { .. }
        | Token::Return
        | Token::Drop
        | Token::LocalSet(_)
        | Token::GlobalSet(_)
        | Token::Store { .. } => 0,
        _ => 1,
    }
}

/// What a token opens.
fn kind_of(opcode: u8) -> Option<BlockKind>
    ensures { IfSome result (λ kind. opcode ≡ opcode_of kind) }
{
    match opcode {
        op::BLOCK => Some(BlockKind::Block),
        op::LOOP => Some(BlockKind::Loop),
        op::IF => Some(BlockKind::If),
        op::ELSE => Some(BlockKind::Else),
        _ => None,
    }
}

/// Goes on by a token that begins there in the code: keeps where those begin that opened the open blocks. An `else` opens the second
/// branch of its if.
#[inline(always)]
fn mark(opened: &mut Vec<u32>, token: Token, at: u32) -> Result<(), AllocError>
    ensures { IfOk result (λ _. (targets : List ℕ) → reverse opened.new.items
        ≡ opened_by (decoded_as targets token) at (reverse opened.old.items)) }
{
    match token {
        Token::Block(_) | Token::Loop(_) | Token::If { .. } => opened.push(at)?,
        Token::Else { .. } => {
            if opened.pop().is_some() {
                opened.push(at)?;
            }
        }
        Token::End => {
            let _closed = opened.pop();
        }
        _ => {}
    }
    Ok(())
}

/// Whether the last of these tokens is that one. It gave one operand more then.
fn counts_on(givers: &mut Vec<Giver>, position: u32) -> bool {
    match givers.last_mut() {
        Some(last) if last.position == position as usize => {
            last.count = last.count.saturating_add(1);
            true
        }
        _ => false,
    }
}

impl GivenRuns {
    /// Before any token.
    fn new(alloc: Global) -> Self {
        GivenRuns {
            passed: 0,
            held: Vec::new(alloc),
            height: 0,
            known: 0,
        }
    }

    /// Forgets the topmost operands, so that at most `height` are left.
    #[inline(always)]
    fn shrink_to(&mut self, height: usize) {
        for _ in 0..self.held.len() {
            match self.held.last() {
                Some(last) if last.below >= height => {
                    let _forgotten = self.held.pop();
                }
                _ => break,
            }
        }
        self.height = self.height.min(height);
    }

    /// Puts operands of the token that begins at offset `at` of the code, until there are `height`.
    #[inline(always)]
    fn grow_to(&mut self, height: usize, at: u32) -> Result<(), AllocError> {
        if height > self.height {
            self.held.push(GivenRun {
                below: self.height,
                position: self.passed,
                at,
            })?;
            self.height = height;
        }
        Ok(())
    }

    /// How many operands lie below the innermost block after a token, and how many it puts itself. A token that opens no block puts
    /// `own`; `known` operands of the innermost block are known after it.
    #[inline(always)]
    fn moved(&self, token: Token, own: usize, known: usize) -> (usize, usize) {
        let base = self.height.saturating_sub(self.known);
        match token {
            Token::Block(_) | Token::Loop(_) => {
                (base.saturating_add(self.known.saturating_sub(known)), known)
            }
            Token::If { .. } => {
                let takes = known.saturating_add(1);
                (base.saturating_add(self.known.saturating_sub(takes)), known)
            }
            Token::Else { .. } => (base, known),
            Token::End => (base.saturating_add(own).saturating_sub(known), own),
            _ => (base, own),
        }
    }

    /// Goes on by a token that begins at offset `at` of the code. It put `own` operands of its own, a block or its second branch
    /// apart, and `known` operands of the innermost block are known after it.
    #[inline(always)]
    fn go_on(&mut self, token: Token, at: u32, own: usize, known: usize) -> Result<(), AllocError> {
        let (base, own) = self.moved(token, own, known);
        let height = base.saturating_add(known);
        self.shrink_to(height.saturating_sub(own));
        self.grow_to(height, at)?;
        self.known = known;
        self.passed = self.passed.saturating_add(1);
        Ok(())
    }

    /// The run of operands in which that one lies, of those that are known, at or after the run at that position.
    fn run_from(&self, run: usize, operand: usize) -> usize {
        let next = run.saturating_add(1);
        match self.held.get(next) {
            Some(held) if held.below <= operand => next,
            _ => run,
        }
    }

    /// The run that holds the operand which has `operand` others below it.
    fn first_run(&self, operand: usize) -> usize {
        for back in 1..self.held.len() {
            let run = self.held.len() - back;
            if self.held[run].below <= operand {
                return run;
            }
        }
        0
    }
}

impl<'a> Trail<'a> {
    /// At the beginning of that code, whose first byte has that offset in the module.
    pub(crate) fn new(alloc: Global, code: &'a [u8], start: usize) -> Self
        ensures code { result.code.now ≡ code.now }
        ensures start { result.start ≡ start }
        ensures opened { result.opened.items ≡ [] }
    {
        Trail {
            code,
            start,
            opened: Vec::new(alloc),
            given: GivenRuns::new(alloc),
        }
    }

    /// Keeps what a token opens or ends, where `left` bytes of the code are left from its first one on, and gives where it begins.
    #[inline(always)]
    fn mark_next(&mut self, token: Token, left: usize) -> Result<u32, Fault>
        ensures same { IfOk result (λ _. KeepsCode self.old self.new) }
        ensures opened { IfOk result (λ _. (targets : List ℕ) → reverse self.new.opened.items
            ≡ opened_by (decoded_as targets token) (length self.old.code.now - left) (reverse self.old.opened.items)) }
    {
        let Ok(at) = u32::try_from(self.code.len().saturating_sub(left)) else {
            return Err(Fault::Malformed);
        };
        mark(&mut self.opened, token, at)?;
        Ok(at)
    }

    /// Goes on by a token, where `left` bytes of the code are left from its first one on. It put `own` operands of its own, a block
    /// or its second branch apart, and `known` operands of the innermost block are known after it.
    #[inline(always)]
    pub(crate) fn note(
        &mut self,
        token: Token,
        left: usize,
        own: usize,
        known: usize,
    ) -> Result<(), Fault>
        ensures same { IfOk result (λ _. KeepsCode self.old self.new) }
        ensures opened { IfOk result (λ _. (targets : List ℕ) → reverse self.new.opened.items
            ≡ opened_by (decoded_as targets token) (length self.old.code.now - left) (reverse self.old.opened.items)) }
    {
        let innermost = self.opened.last().copied();
        let at = self.mark_next(token, left)?;
        let from = match token {
            Token::End => innermost.unwrap_or(at),
            _ => at,
        };
        self.given.go_on(token, from, own, known)?;
        Ok(())
    }

    /// The token that begins there in the code, where it opens a block.
    fn opening_at(&self, from: u32) -> Option<Opening>
        ensures { IfSome result (λ o. (o.at ≡ self.now.start + from) × (slice_get self.now.code.now from ≡ Some (opcode_of o.kind))) }
    {
        let opcode = self.code.get(from as usize)?;
        Some(Opening {
            kind: kind_of(*opcode)?,
            at: self.start.checked_add(from as usize)?,
        })
    }

    /// The token that opened the block which lies in that many blocks.
    fn outer_opening(&self, position: usize) -> Option<Opening>
        ensures { IfSome result (IsOpening self.now.code.now self.now.start self.now.opened.items position) }
    {
        self.opening_at(*self.opened.get(position)?)
    }

    /// The token that opened the block which that many blocks lie in.
    pub(crate) fn opening(&self, inner: usize) -> Option<Opening>
        ensures { IfSome result (IsOpening self.now.code.now self.now.start (reverse self.now.opened.items) inner) }
    {
        let position = self.opened.len().checked_sub(inner)?.checked_sub(1)?;
        self.opening_at(*self.opened.get(position)?)
    }

    /// The block that has ended whose opening token begins there in the code.
    fn ended_at(&self, at: u32) -> Option<Opening> {
        if self.opened.as_slice().binary_search(&at).is_ok() {
            return None;
        }
        self.opening_at(at)
    }

    /// The token that gave a run of operands, the lowest of which was found as that one.
    fn giver(
        &self,
        alloc: Global,
        held: GivenRun,
        first: usize,
    ) -> Result<Option<Giver>, AllocError> {
        let position = held.position as usize;
        let at = self.start.saturating_add(held.at as usize);
        let ends = self.ended_at(held.at);
        if ends.is_some() {
            return Ok(Some(Giver {
                position,
                at,
                opcode: op::END,
                token: Token::End,
                ends,
                first,
                count: 1,
            }));
        }
        let bytes = self.code.get(held.at as usize..).unwrap_or(&[]);
        let [opcode, ..] = bytes else {
            return Ok(None);
        };
        let mut targets = Vec::new(alloc);
        match token_at(&mut targets, bytes) {
            Ok((token, _after)) => Ok(Some(Giver {
                position,
                at,
                opcode: *opcode,
                token,
                ends,
                first,
                count: 1,
            })),
            Err(Fault::Malformed) => Ok(None),
            Err(Fault::Memory) => Err(AllocError),
        }
    }

    /// The tokens that gave the topmost operands found, the lowest first, of which `known` are held; none of one whose type is not known.
    /// Where the wrong one lies too deep for these, those that gave it and the ones above it.
    pub(crate) fn givers(
        &self,
        alloc: Global,
        finds: &[Option<ValType>],
        known: usize,
        wrong: usize,
    ) -> Result<Vec<Giver>, AllocError> {
        let depth = known.min(GIVEN.max(wrong.saturating_add(1)));
        let least = finds.len().saturating_sub(depth);
        let operands = finds.get(least..).unwrap_or(finds);
        let lowest = self.given.height.saturating_sub(operands.len());
        let mut run = self.given.first_run(lowest);
        let mut givers = Vec::new(alloc);
        for (position, operand) in operands.iter().take(GIVEN).enumerate() {
            run = self.given.run_from(run, lowest.saturating_add(position));
            let Some(held) = self.given.held.get(run) else {
                return Ok(givers);
            };
            if operand.is_some() && !counts_on(&mut givers, held.position) {
                let first = least.saturating_add(position);
                if let Some(giver) = self.giver(alloc, *held, first)? {
                    givers.push(giver)?;
                }
            }
        }
        Ok(givers)
    }
}

/// Goes on by some tokens of the code: keeps what they open and end.
fn mark_tokens(alloc: Global, trail: &mut Trail<'_>, code: &[u8], count: usize) -> Result<(), Fault>
    requires code { trail.old.code.now ≡ code.now }
    requires opened { trail.old.opened.items ≡ [] }
    ensures same { IfOk result (λ _. KeepsCode trail.old trail.new) }
    ensures opened { IfOk result (λ _. reverse trail.new.opened.items ≡ opened_after count code.now) }
{
    let mut targets = Vec::new(alloc);
    let mut rest = code;
    for position in 0..count {
        targets.clear();
        let (token, after) = token_at(&mut targets, rest)?;
        trail.mark_next(token, rest.len())?;
        rest = after;
    }
    Ok(())
}

/// The open blocks.
fn open_blocks(alloc: Global, trail: &Trail<'_>) -> Result<OpenBlocks, Fault>
    ensures count { IfOk result (λ o. o.count ≡ length trail.now.opened.items) }
    ensures outermost { IfOk result (λ o. AreOutermost trail.now.code.now trail.now.start trail.now.opened.items o.outermost.items) }
{
    let mut outermost = Vec::new(alloc);
    for position in 0..trail.opened.len().min(BLOCKS) {
        let Some(opening) = trail.outer_opening(position) else {
            return Err(Fault::Malformed);
        };
        outermost.push(opening)?;
    }
    Ok(OpenBlocks {
        count: trail.opened.len(),
        outermost,
    })
}

/// The blocks that are open after that many tokens of a body, which begins at offset `start`; Malformed where there are none.
pub fn find_open(
    alloc: Global,
    body: &[u8],
    start: usize,
    count: usize,
) -> Result<OpenBlocks, Fault>
    ensures { IfOk result (AreOpenAfter body.now start count) }
{
    let (_runs, code) = locals_at(alloc, body)?;
    let Some(begins) = offset_of(start, body, code) else {
        return Err(Fault::Malformed);
    };
    let mut trail = Trail::new(alloc, code, begins);
    mark_tokens(alloc, &mut trail, code, count)?;
    open_blocks(alloc, &trail)
}
