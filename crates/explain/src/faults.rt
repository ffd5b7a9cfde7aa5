//! Why a body is refused: by its verdict alone, and with its locations.
ghost use Rattle.std.specs.Prelude.{◌≡◌, IfOk, IfSome, Some, None, map, slice_get};
ghost use Rattle.wsyntax.specs.Binary.Sections.{locals_of};
ghost use Rattle.refusal.specs.declared.refusal.BodyRefusal.TheVariants as refusal;
ghost use Rattle.explanation.specs.Told.{refusal_told};
ghost use Rattle.explain.specs.Placed.{Declares, TellsBody, TellsLocations, TellsNoLocations, TellsOpen, TellsToken};

use explain_bytes::{body_span, stop_of};
use explain_typing::{Told, find_open, find_told, first_ill_typed};
use explanation::{BodyExplanation, IllTypedToken, OpenBlocks, Span, StopLocation, Stopped};
use refusal::BodyRefusal;
use std::alloc::{AllocError, Global};
use wcontext::Context;
use wdecode::{Fault, locals_at};
use wsyntax::LocalRun;

/// What is known of a refused body by its verdict alone.
fn bare_fault<'a>(refusal: BodyRefusal) -> BodyExplanation<'a>
    ensures refusal { refusal_told result ≡ refusal }
    ensures locations { TellsNoLocations result }
{
    match refusal {
        BodyRefusal::Malformed => BodyExplanation::Malformed {
            stop: None,
            unclosed: None,
            before: None,
        },
        BodyRefusal::TooManyLocals => BodyExplanation::TooManyLocals { count: None },
        BodyRefusal::IllTyped { at } => BodyExplanation::IllTyped {
            position: at,
            found: None,
            typing: None,
            cause: None,
        },
    }
}

/// How many locals runs declare.
fn count_of(runs: &[LocalRun]) -> Option<u64>
    ensures { IfSome result (λ count. count ≡ locals_of runs.now) }
{
    let mut count: u64 = 0;
    for run in runs {
        count = count.checked_add(u64::from(run.count))?;
    }
    Some(count)
}

/// How many locals a body declares.
fn declared_locals(alloc: Global, body: &[u8]) -> Result<Option<u64>, AllocError>
    ensures { IfOk result (λ count. IfSome count (Declares body.now)) }
{
    match locals_at(alloc, body) {
        Ok((runs, _code)) => Ok(count_of(&runs)),
        Err(Fault::Malformed) => Ok(None),
        Err(Fault::Memory) => Err(AllocError),
    }
}

/// The token at that position, its typing and its cause, in a body that begins at offset `start`.
fn placed_token<'a>(
    alloc: Global,
    context: &Context,
    func: u32,
    body: &[u8],
    start: usize,
    position: usize,
) -> Result<BodyExplanation<'a>, AllocError>
    ensures refusal { IfOk result (λ f. refusal_told f ≡ refusal.IllTyped position) }
    ensures locations { IfOk result (TellsLocations context.now.context func body.now start) }
{
    match find_told(alloc, context, func, body, start, position) {
        Ok(
            Told {
                found,
                typing,
                cause,
            },
        ) => Ok(BodyExplanation::IllTyped {
            position,
            found: Some(found),
            typing: Some(typing),
            cause,
        }),
        Err(Fault::Malformed) => Ok(bare_fault(BodyRefusal::IllTyped { at: position })),
        Err(Fault::Memory) => Err(AllocError),
    }
}

/// The blocks that are open where a body ends that begins at offset `start`, and stops there.
fn unclosed_in(
    alloc: Global,
    body: &[u8],
    start: usize,
    stop: &StopLocation<'_>,
) -> Result<Option<OpenBlocks>, AllocError>
    ensures { IfOk result (λ blocks. IfSome blocks (TellsOpen body.now start (Some stop.now))) }
{
    if stop.why != Stopped::Short {
        return Ok(None);
    }
    match find_open(alloc, body, start, stop.tokens) {
        Ok(blocks) => Ok(Some(blocks)),
        Err(Fault::Malformed) => Ok(None),
        Err(Fault::Memory) => Err(AllocError),
    }
}

/// The first token that is ill typed among that many of a body that begins at offset `start`.
fn find_ill_typed(
    alloc: Global,
    context: &Context,
    func: u32,
    body: &[u8],
    start: usize,
    count: usize,
) -> Result<Option<IllTypedToken>, Fault>
    ensures { IfOk result (λ token. IfSome token (TellsToken context.now.context func body.now start)) }
{
    let Some(position) = first_ill_typed(alloc, context, func, body, count)? else {
        return Ok(None);
    };
    let Told {
        found,
        typing,
        cause,
    } = find_told(alloc, context, func, body, start, position)?;
    Ok(Some(IllTypedToken {
        position,
        found,
        typing,
        cause,
    }))
}

/// The same where it is found.
fn ill_typed_in(
    alloc: Global,
    context: &Context,
    func: u32,
    body: &[u8],
    start: usize,
    count: usize,
) -> Result<Option<IllTypedToken>, AllocError>
    ensures { IfOk result (λ token. IfSome token (TellsToken context.now.context func body.now start)) }
{
    match find_ill_typed(alloc, context, func, body, start, count) {
        Ok(token) => Ok(token),
        Err(Fault::Malformed) => Ok(None),
        Err(Fault::Memory) => Err(AllocError),
    }
}

/// Why the body of the function of that index is malformed, which begins at offset `start`.
fn malformed_body<'a>(
    alloc: Global,
    context: &Context,
    func: u32,
    body: &'a [u8],
    start: usize,
) -> Result<BodyExplanation<'a>, AllocError>
    ensures refusal { IfOk result (λ f. refusal_told f ≡ refusal.Malformed) }
    ensures locations { IfOk result (TellsLocations context.now.context func body.now start) }
{
    let Some(stop) = stop_of(alloc, body, start)? else {
        return Ok(bare_fault(BodyRefusal::Malformed));
    };
    Ok(BodyExplanation::Malformed {
        stop: Some(stop),
        unclosed: unclosed_in(alloc, body, start, &stop)?,
        before: ill_typed_in(alloc, context, func, body, start, stop.tokens)?,
    })
}

/// Why the body of the function of that index is refused, which begins at offset `start`.
fn placed_fault<'a>(
    alloc: Global,
    context: &Context,
    func: u32,
    body: &'a [u8],
    start: usize,
    refusal: BodyRefusal,
) -> Result<BodyExplanation<'a>, AllocError>
    ensures refusal { IfOk result (λ f. refusal_told f ≡ refusal) }
    ensures locations { IfOk result (TellsLocations context.now.context func body.now start) }
{
    match refusal {
        BodyRefusal::Malformed => { malformed_body(alloc, context, func, body, start) }
        BodyRefusal::TooManyLocals => {
            let count = declared_locals(alloc, body)?;
            Ok(BodyExplanation::TooManyLocals { count })
        }
        BodyRefusal::IllTyped { at } => placed_token(alloc, context, func, body, start, at),
    }
}

/// Why a body is refused, and where it stands.
#[derive(Drop)]
pub(crate) struct Located<'a> {
    pub(crate) span: Option<Span>,
    pub(crate) fault: BodyExplanation<'a>,
}

/// A body whose span is not known.
pub(crate) fn not_located<'a>(refusal: BodyRefusal) -> Located<'a>
    ensures refusal { refusal_told result.fault ≡ refusal }
    ensures locations { (result.span ≡ None) × TellsNoLocations result.fault }
{
    Located {
        span: None,
        fault: bare_fault(refusal),
    }
}

/// The body at that position of the bodies of a module.
fn body_at<'a>(bodies: &Vec<&'a [u8]>, position: usize) -> Option<&'a [u8]>
    ensures { IfSome result (λ body. slice_get (map (λ s. s.now) bodies.now.items) position ≡ Some body.now) }
{
    bodies.get(position).copied()
}

/// Why the body of the function of that index is refused, and where it stands among the bytes of its module.
pub(crate) fn locate<'a>(
    alloc: Global,
    bytes: &[u8],
    context: &Context,
    bodies: &Vec<&'a [u8]>,
    imported: usize,
    func: u32,
    refusal: BodyRefusal,
) -> Result<Located<'a>, AllocError>
    ensures refusal { IfOk result (λ l. refusal_told l.fault ≡ refusal) }
    ensures locations { IfOk result (λ l.
        TellsBody bytes.now context.now.context imported (map (λ s. s.now) bodies.now.items) func l.span l.fault) }
{
    let Some(position) = (func as usize).checked_sub(imported) else {
        return Ok(not_located(refusal));
    };
    let Some(body) = body_at(bodies, position) else {
        return Ok(not_located(refusal));
    };
    let Some(span) = body_span(bytes, position, body) else {
        return Ok(not_located(refusal));
    };
    let fault = placed_fault(alloc, context, func, body, span.from, refusal)?;
    Ok(Located {
        span: Some(span),
        fault,
    })
}
