//! The explanation of a verdict: made after it, and only of what is refused.
ghost use Rattle.std.specs.Prelude.{◌≡◌, IfOk, IfSome};
ghost use Rattle.wsyntax.specs.Modules.{module_shape};
ghost use Rattle.wsyntax.specs.Validation.Verdict.{IsVerdict};
ghost use Rattle.explain.specs.Headers.{TellsHeader};
ghost use Rattle.explain.specs.Placed.{AreSo, IsSo, IsSoIn, KnowsNothing};
ghost use Rattle.explanation.specs.Told.{Tells, verdict_told};

use crate::faults::{Located, locate, not_located};
use crate::headers::no_module;
use explain_bytes::{location_of, name_of, sign_of};
use explain_rules::broken_item;
use explanation::{
    BodyExplanation, Explanation, FoundToken, NoModule, RefusedFunction, first_export, signature_of,
};
use std::alloc::{AllocError, Global};
use verdict::{BodyRefusal, Refusal, examine_alone};
use wcontext::{ModuleFault, check_rules_before_code};
use wdecode::{DecodeFault, ModuleHead, decode_front};
use wsyntax::{Module, Token};

/// A refused body of which no more is known than its verdict.
fn bare_body<'a>(func: u32, refusal: BodyRefusal) -> RefusedFunction<'a>
    ensures refusal { Tells func refusal result }
    ensures nothing { KnowsNothing result }
{
    let Located { span, fault } = not_located(refusal);
    RefusedFunction {
        func,
        span,
        name: None,
        export: None,
        signature: None,
        callee: None,
        fault,
        sign: None,
    }
}

/// The name of the function that an ill-typed token calls, in the module of those bytes.
fn callee_of<'a>(
    bytes: &'a [u8],
    module: &Module<'a>,
    fault: &BodyExplanation<'_>,
) -> Option<&'a [u8]> {
    let BodyExplanation::IllTyped {
        found: Some(
            FoundToken {
                token: Token::Call(func),
                ..
            },
        ),
        ..
    } = fault
    else {
        return None;
    };
    name_of(bytes, *func).or(first_export(&module.exports, *func))
}

/// The refused body of the function of that index, in a module of that front.
fn body_of<'a>(
    alloc: Global,
    bytes: &'a [u8],
    front: &ModuleHead<'a>,
    func: u32,
    refusal: BodyRefusal,
) -> Result<RefusedFunction<'a>, AllocError>
    ensures refusal { IfOk result (Tells func refusal) }
    ensures so { IfOk result (IsSoIn bytes.now (module_shape front.now.module)) }
{
    let context = match check_rules_before_code(alloc, &front.module) {
        Ok((context, _counts)) => context,
        Err(ModuleFault::Rule(_)) => return Ok(bare_body(func, refusal)),
        Err(ModuleFault::Memory) => return Err(AllocError),
    };
    let signature = signature_of(alloc, &context, func)?;
    let imported = context.imported_functions();
    let Located { span, fault } = locate(
        alloc,
        bytes,
        &context,
        &front.module.bodies,
        imported,
        func,
        refusal,
    )?;
    Ok(RefusedFunction {
        func,
        span,
        name: name_of(bytes, func),
        export: first_export(&front.module.exports, func),
        signature,
        callee: callee_of(bytes, &front.module, &fault),
        fault,
        sign: sign_of(bytes),
    })
}

/// The refused body of the function of that index.
fn refused_body<'a>(
    alloc: Global,
    bytes: &'a [u8],
    func: u32,
    refusal: BodyRefusal,
) -> Result<RefusedFunction<'a>, AllocError>
    ensures refusal { IfOk result (Tells func refusal) }
    ensures so { IfOk result (IsSo bytes.now) }
{
    match decode_front(alloc, bytes) {
        Ok(front) => body_of(alloc, bytes, &front, func, refusal),
        Err(DecodeFault::Memory) => Err(AllocError),
        Err(DecodeFault::Malformed | DecodeFault::TooLarge) => Ok(bare_body(func, refusal)),
    }
}

/// What bytes are that spell no module.
fn not_spelled(alloc: Global, bytes: &[u8]) -> Result<NoModule, AllocError>
    ensures { IfOk result (TellsHeader bytes.now) }
{
    match no_module(bytes) {
        NoModule::Sections { .. } => {
            let location = location_of(alloc, bytes)?;
            let sign = sign_of(bytes);
            Ok(NoModule::Sections { location, sign })
        }
        other => Ok(other),
    }
}

/// Judges a module, on the calling thread, and says of a refusal where and why.
pub fn explain(alloc: Global, bytes: &[u8]) -> Explanation<'_>
    // What it tells is the verdict.
    ensures verdict { IfSome (verdict_told result) (IsVerdict bytes.now) }
    // What it tells of a refused body is so.
    ensures so { AreSo bytes.now result }
{
    match examine_alone(alloc, bytes) {
        Ok(()) => Explanation::Accepted,
        Err(Refusal::TooLarge) => Explanation::TooLarge { bytes: bytes.len() },
        Err(Refusal::Malformed) => match not_spelled(alloc, bytes) {
            Ok(what) => Explanation::Malformed(what),
            Err(AllocError) => Explanation::Memory,
        },
        Err(Refusal::Rule(rule)) => match broken_item(alloc, bytes, rule) {
            Ok(item) => {
                let sign = sign_of(bytes);
                Explanation::Rule { rule, item, sign }
            }
            Err(AllocError) => Explanation::Memory,
        },
        Err(Refusal::Body { func, refusal }) => match refused_body(alloc, bytes, func, refusal) {
            Ok(body) => Explanation::Body(body),
            Err(AllocError) => Explanation::Memory,
        },
        Err(Refusal::Memory) => Explanation::Memory,
    }
}
