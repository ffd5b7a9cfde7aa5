//! The body of an ill-typed token, checked anew up to it, once: where the token stands, what it takes and finds, in which blocks it
//! stands, and why it is refused.
ghost use Rattle.std.specs.Prelude.{◌≡◌, ◌+◌, ◌-◌, ℕ, List, [], true, false, IfOk, IfSome, Some, length, map, reverse, take};
ghost use Rattle.wsyntax.specs.Modules.{decoded_as};
ghost use Rattle.wsyntax.specs.Binary.Nesting.{token_at as token_of};
ghost use Rattle.wsyntax.specs.Validation.Algorithm.{step, when};
ghost use Rattle.wcheck.specs.Checking.{with_frames};
ghost use Rattle.explain_bytes.specs.Locations.{IsLeft, IsTokenAt, left_after};
ghost use Rattle.explain_typing.specs.Causes.{IsCause, IsCauseOf};
ghost use Rattle.explain_typing.specs.Typed.{AreKept, ArePassed, IsTypingIn, IsTypingOf, KeepsCode, PassesTo, StepsTo};
ghost use Rattle.explain_typing.specs.Typed.{block_types, opened_after, opened_next};
ghost use Rattle.explanation.specs.Functions.{type_told};

use crate::causes::{name_cause, operand_cause};
use crate::operands::{Operands, leaves_of, takes_of};
use crate::trail::{Trail, puts};
use explain_bytes::{first_token, offset_of};
use explanation::{Cause, FoundToken, FunctionSignature, OpenBlock, PassedToken, Typing};
use std::alloc::{AllocError, Global};
use wcheck::{Checker, OpenFrame};
use wcontext::Context;
use wdecode::{Fault, locals_at, token_at};
use wsyntax::Token;

/// How many of the open blocks are told.
const BLOCKS: usize = 8;

/// How many of the tokens before the ill-typed one are told.
const PASSED: usize = 4;

/// What is told of an ill-typed token.
#[derive(Drop)]
pub struct Told {
    pub found: FoundToken,
    pub typing: Typing,
    pub cause: Option<Cause>,
}

/// Goes on by a token in less time, where it is one of those that bodies are mostly made of and the operands that it takes are
/// known to be there. `false`: nothing was done, which says nothing of the token.
#[inline(always)]
fn pass_known(checker: &mut Checker<'_>, token: Token) -> bool
    ensures step { result ≡ true → (targets : List ℕ) →
        step checker.old.inside (decoded_as targets token) checker.old.frames ≡ Some checker.new.frames }
    ensures same { result ≡ true → checker.new ≡ with_frames checker.old checker.new.frames }
    ensures others { result ≡ false → checker.new ≡ checker.old }
{
    if checker.is_finished() {
        return false;
    }
    // PERF: each arm has a kind of token of its own, so that the compiler tells the token apart once.
    match token {
        Token::LocalGet(x) => checker.try_fast_step(Token::LocalGet(x)),
        Token::LocalSet(x) => checker.try_fast_step(Token::LocalSet(x)),
        Token::I32Const(value) => checker.try_fast_step(Token::I32Const(value)),
        Token::Numeric(operator) => checker.try_fast_step(Token::Numeric(operator)),
        _ => false,
    }
}

/// Goes on by a token. `false`: no typed body begins with the tokens so far.
#[inline(always)]
fn step_token(checker: &mut Checker<'_>, token: Token, targets: &[u32]) -> Result<bool, AllocError>
    ensures step { IfOk result (λ ok. step checker.old.inside (decoded_as targets.now token) checker.old.frames
        ≡ when ok (Some checker.new.frames)) }
    ensures same { IfOk result (λ _. checker.new ≡ with_frames checker.old checker.new.frames) }
{
    if pass_known(checker, token) {
        return Ok(true);
    }
    checker.step(token, targets)
}

/// Goes on by the token at the front of the bytes.
#[inline(always)]
fn pass_token<'a>(
    checker: &mut Checker<'_>,
    trail: &mut Trail<'_>,
    targets: &mut Vec<u32>,
    bytes: &'a [u8],
) -> Result<&'a [u8], Fault>
    ensures steps { IfOk result (λ after. StepsTo bytes.now checker.old after.now checker.new) }
    ensures same { IfOk result (λ _. KeepsCode trail.old trail.new) }
    ensures opened { IfOk result (λ _. reverse trail.new.opened.items
        ≡ opened_next (token_of bytes.now) (length trail.old.code.now - length bytes.now) (reverse trail.old.opened.items)) }
{
    targets.clear();
    let (token, after) = token_at(targets, bytes)?;
    let own = puts(checker, token);
    if !step_token(checker, token, targets)? {
        return Err(Fault::Malformed);
    }
    let known = known_in(checker);
    trail.note(token, bytes.len(), own, known)?;
    Ok(after)
}

/// How many operands of the innermost block are known.
#[inline(always)]
fn known_in(checker: &Checker<'_>) -> usize {
    match checker.innermost() {
        Some(frame) => frame.height,
        None => 0,
    }
}

/// The position of the first of that many tokens of a body that is ill typed; Malformed where there are fewer.
pub fn first_ill_typed(
    alloc: Global,
    context: &Context,
    func: u32,
    body: &[u8],
    count: usize,
) -> Result<Option<usize>, Fault> {
    if func as usize >= context.function_count() {
        return Ok(None);
    }
    let (runs, mut rest) = locals_at(alloc, body)?;
    let mut checker = Checker::new(alloc, context);
    checker.begin(func, &runs)?;
    let mut targets = Vec::new(alloc);
    for position in 0..count {
        targets.clear();
        let (token, after) = token_at(&mut targets, rest)?;
        if !step_token(&mut checker, token, &targets)? {
            return Ok(Some(position));
        }
        rest = after;
    }
    Ok(None)
}

/// Keeps the token at that position of a body, which begins at offset `start`, if it is one of the last before position `count`. The
/// rest of the body begins with the token, and the checker stands before it.
fn keep_last(
    alloc: Global,
    checker: &Checker<'_>,
    passed: &mut Vec<PassedToken>,
    body: &[u8],
    start: usize,
    rest: &[u8],
    position: usize,
    count: usize,
) -> Result<(), Fault>
    requires { IsLeft body.now position rest.now }
    ensures { IfOk result (λ _. ArePassed body.now start count position passed.old.items
        → ArePassed body.now start count (position + 1) passed.new.items) }
{
    if position < count.saturating_sub(PASSED) {
        return Ok(());
    }
    let found = first_token(alloc, body, start, rest)?;
    let leaves = leaves_of(alloc, checker, found.token, &found.targets)?;
    passed.push(PassedToken {
        position,
        found,
        leaves,
    })?;
    Ok(())
}

/// Goes on by some tokens of the bytes after the locals of a body, which begins at offset `start`, and keeps the last of them.
fn pass_tokens<'a>(
    alloc: Global,
    checker: &mut Checker<'_>,
    trail: &mut Trail<'_>,
    passed: &mut Vec<PassedToken>,
    body: &[u8],
    start: usize,
    code: &'a [u8],
    count: usize,
) -> Result<&'a [u8], Fault>
    requires left { IsLeft body.now 0 code.now }
    requires none { passed.old.items ≡ [] }
    requires code { trail.old.code.now ≡ code.now }
    requires opened { trail.old.opened.items ≡ [] }
    ensures last { IfOk result (λ _. ArePassed body.now start count count passed.new.items) }
    ensures left { IfOk result (λ rest. left_after count code.now ≡ Some rest.now) }
    ensures passed { IfOk result (λ _. PassesTo checker.old code.now count checker.new) }
    ensures same { IfOk result (λ _. KeepsCode trail.old trail.new) }
    ensures opened { IfOk result (λ _. reverse trail.new.opened.items ≡ opened_after count code.now) }
{
    let mut targets = Vec::new(alloc);
    let mut rest = code;
    for position in 0..count {
        keep_last(alloc, checker, passed, body, start, rest, position, count)?;
        rest = pass_token(checker, trail, &mut targets, rest)?;
    }
    Ok(rest)
}

/// The type of an open block.
fn signature_in(alloc: Global, frame: OpenFrame<'_>) -> Result<FunctionSignature, AllocError>
    ensures { IfOk result (λ s. type_told s ≡ record { params = frame.entry.starts.now; results = frame.entry.gives.now }) }
{
    Ok(FunctionSignature {
        params: Vec::from_slice(alloc, frame.starts)?,
        results: Vec::from_slice(alloc, frame.gives)?,
    })
}

/// The innermost of the open blocks. The checker leaves them.
fn blocks_within(
    alloc: Global,
    checker: &mut Checker<'_>,
    trail: &Trail<'_>,
) -> Result<Vec<OpenBlock>, AllocError>
    ensures types { IfOk result (λ bs. map (λ b. type_told b.signature) bs.items ≡ take 8 (block_types checker.old.frames)) }
    ensures openings { IfOk result (λ bs. AreKept trail.now bs.items) }
{
    let mut blocks = Vec::new(alloc);
    for inner in 0..BLOCKS {
        let Some(frame) = checker.innermost() else {
            return Ok(blocks);
        };
        checker.leave();
        if checker.is_finished() {
            return Ok(blocks);
        }
        blocks.push(OpenBlock {
            opening: trail.opening(inner),
            signature: signature_in(alloc, frame)?,
        })?;
    }
    Ok(blocks)
}

/// What is told of a token that names what is not there, behind those that are passed.
fn told_of_name(
    alloc: Global,
    checker: &mut Checker<'_>,
    trail: &Trail<'_>,
    passed: Vec<PassedToken>,
) -> Result<Typing, AllocError>
    ensures operands { IfOk result (λ t. (t.takes.items ≡ []) × (t.finds.items ≡ [])) }
    ensures passed { IfOk result (λ t. t.passed ≡ passed) }
    ensures within { IfOk result (λ t. map (λ b. type_told b.signature) t.within.items ≡ take 8 (block_types checker.old.frames)) }
    ensures openings { IfOk result (λ t. AreKept trail.now t.within.items) }
{
    Ok(Typing {
        takes: Vec::new(alloc),
        finds: Vec::new(alloc),
        given_by: Vec::new(alloc),
        passed,
        within: blocks_within(alloc, checker, trail)?,
    })
}

/// What is told of a token that takes and finds these operands, `known` of which are known; the wrong one has that position.
fn told_of_operands(
    alloc: Global,
    checker: &mut Checker<'_>,
    trail: &Trail<'_>,
    takes: Operands,
    finds: Operands,
    known: usize,
    wrong: usize,
    passed: Vec<PassedToken>,
) -> Result<Typing, AllocError>
    ensures takes { IfOk result (λ t. t.takes ≡ takes) }
    ensures finds { IfOk result (λ t. t.finds ≡ finds) }
    ensures passed { IfOk result (λ t. t.passed ≡ passed) }
    ensures within { IfOk result (λ t. map (λ b. type_told b.signature) t.within.items ≡ take 8 (block_types checker.old.frames)) }
    ensures openings { IfOk result (λ t. AreKept trail.now t.within.items) }
{
    let given_by = trail.givers(alloc, &finds, known, wrong)?;
    let within = blocks_within(alloc, checker, trail)?;
    Ok(Typing {
        takes,
        finds,
        given_by,
        passed,
        within,
    })
}

/// The position of the operand that is wrong, from 0 on top.
fn wrong_position(cause: &Option<Cause>) -> usize {
    match cause {
        Some(Cause::Operand { position, .. }) => *position,
        Some(Cause::LeftOver { .. }) => usize::MAX,
        _ => 0,
    }
}

/// What is told of a token before which the checker stands, and why it is refused.
fn told_of_token(
    alloc: Global,
    checker: &mut Checker<'_>,
    trail: &Trail<'_>,
    token: Token,
    targets: &[u32],
    passed: Vec<PassedToken>,
) -> Result<(Typing, Option<Cause>), AllocError>
    ensures typing { IfOk result (λ r. IsTypingIn checker.old.inside (decoded_as targets.now token) checker.old.frames r.0) }
    ensures openings { IfOk result (λ r. AreKept trail.now r.0.within.items) }
    ensures cause { IfOk result (λ r. IfSome r.1 (IsCause checker.old.inside (decoded_as targets.now token) checker.old.frames)) }
    ensures passed { IfOk result (λ r. r.0.passed ≡ passed) }
{
    let known = known_in(checker);
    match takes_of(alloc, checker, token, targets)? {
        None => {
            let cause = name_cause(alloc, checker, token, targets)?;
            let typing = told_of_name(alloc, checker, trail, passed)?;
            Ok((typing, cause))
        }
        Some(takes) => {
            let (finds, cause) = operand_cause(alloc, checker, token, &takes)?;
            let wrong = wrong_position(&cause);
            let typing = told_of_operands(
                alloc, checker, trail, takes, finds, known, wrong, passed,
            )?;
            Ok((typing, cause))
        }
    }
}

/// What is told of the token at that position of a body that begins at offset `start`; Malformed where there is none.
pub fn find_told(
    alloc: Global,
    context: &Context,
    func: u32,
    body: &[u8],
    start: usize,
    position: usize,
) -> Result<Told, Fault>
    ensures found { IfOk result (λ t. IsTokenAt body.now start position t.found) }
    ensures typing { IfOk result (λ t. IsTypingOf context.now.context func body.now start position t.typing) }
    ensures cause { IfOk result (λ t. IfSome t.cause (IsCauseOf context.now.context func body.now position)) }
{
    if func as usize >= context.function_count() {
        return Err(Fault::Malformed);
    }
    let (runs, code) = locals_at(alloc, body)?;
    let mut checker = Checker::new(alloc, context);
    checker.begin(func, &runs)?;
    let Some(begins) = offset_of(start, body, code) else {
        return Err(Fault::Malformed);
    };
    let mut trail = Trail::new(alloc, code, begins);
    let mut passed = Vec::new(alloc);
    let rest = pass_tokens(
        alloc,
        &mut checker,
        &mut trail,
        &mut passed,
        body,
        start,
        code,
        position,
    )?;
    let found = first_token(alloc, body, start, rest)?;
    let (typing, cause) = told_of_token(
        alloc,
        &mut checker,
        &trail,
        found.token,
        &found.targets,
        passed,
    )?;
    Ok(Told {
        found,
        typing,
        cause,
    })
}
