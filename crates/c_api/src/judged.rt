//! A verdict as the fields of `gate_verdict` of gate.h.

ghost use Rattle.std.specs.Prelude.{◌≡◌, ◌≢◌, ◌⊎◌, Some, IfSome, IfNone, IsSomeAnd, MatchOption, option_map};
ghost use Rattle.wsyntax.specs.Validation.Verdict.{Verdict, Accepted, BodyRefused};
ghost use Rattle.refusal.specs.Refusals.{fault_of, verdict_of};
ghost use Rattle.batch.specs.Report.{given_verdict};
ghost use Rattle.c_api.specs.Verdicts.{fields_of, IsNamed, IsNoVerdict};

use verdict::{BodyRefusal, Refusal};

/// A verdict. Of the fields after the kind those are set that belong to it, and the others are 0.
#[repr(C)]
#[derive(Clone, Copy, PartialEq, Eq)]
pub struct GateVerdict {
    /// 0 accepted, 1 too large, 2 malformed, 3 a rule is broken, 4 a body is malformed, 5 it has too many locals, 6 it is
    /// ill typed.
    pub kind: u32,
    /// The least broken rule, 2 to 13.
    pub rule: u32,
    /// The function whose body is refused, imported ones counted first.
    pub function: u32,
    /// The first token that no completion can save, from 0.
    pub token: u64,
}

const _: () = prove!(size_of::<GateVerdict>() == 24 && align_of::<GateVerdict>() == 8);

impl GateVerdict {
    /// A verdict with these fields, in their order.
    fn new(kind: u32, rule: u32, function: u32, token: u64) -> GateVerdict
        ensures kind { result.kind ≡ kind }
        ensures rule { result.rule ≡ rule }
        ensures function { result.function ≡ function }
        ensures token { result.token ≡ token }
    {
        GateVerdict {
            kind,
            rule,
            function,
            token,
        }
    }

    /// The verdict that a body is refused.
    fn of_body(function: u32, refusal: BodyRefusal) -> GateVerdict
        ensures { result ≡ fields_of (BodyRefused function (fault_of refusal)) }
    {
        match refusal {
            BodyRefusal::Malformed => GateVerdict::new(4, 0, function, 0),
            BodyRefusal::TooManyLocals => GateVerdict::new(5, 0, function, 0),
            BodyRefusal::IllTyped { at } => GateVerdict::new(6, 0, function, at as u64),
        }
    }

    /// The verdict that a module is accepted.
    pub(crate) fn accepted() -> GateVerdict
        ensures { result ≡ fields_of Accepted }
    {
        GateVerdict::new(0, 0, 0, 0)
    }

    /// The verdict of a refusal; `None` where memory was refused.
    pub(crate) fn of_refusal(refusal: Refusal) -> Option<GateVerdict>
        ensures { result ≡ option_map fields_of (verdict_of refusal) }
    {
        match refusal {
            Refusal::TooLarge => Some(GateVerdict::new(1, 0, 0, 0)),
            Refusal::Malformed => Some(GateVerdict::new(2, 0, 0, 0)),
            Refusal::Rule(rule) => Some(GateVerdict::new(3, rule, 0, 0)),
            Refusal::Body { func, refusal } => Some(GateVerdict::of_body(func, refusal)),
            Refusal::Memory => None,
        }
    }

    /// The refusal of that kind with these fields, of which those that do not belong to the kind are not read. `None` where there
    /// is none, as where a rule has no such number.
    fn refusal(&self) -> Option<Refusal>
        ensures found { (v : Verdict) → IsNamed v → self.now ≡ fields_of v → v ≢ Accepted →
            IsSomeAnd result (λ r. verdict_of r ≡ Some v) }
        ensures named { IfSome result (λ r. IfSome (verdict_of r) IsNamed) }
    {
        let refusal = match self.kind {
            1 => return Some(Refusal::TooLarge),
            2 => return Some(Refusal::Malformed),
            3 if 2 <= self.rule && self.rule <= 13 => return Some(Refusal::Rule(self.rule)),
            4 => BodyRefusal::Malformed,
            5 => BodyRefusal::TooManyLocals,
            6 => BodyRefusal::IllTyped {
                at: self.token as usize,
            },
            _ => return None,
        };
        Some(Refusal::Body {
            func: self.function,
            refusal,
        })
    }

    /// What the judge found that these are the fields of; `None` where they are of no verdict.
    pub(crate) fn judged(&self) -> Option<Result<(), Refusal>>
        ensures some { IfSome result (λ judged. IsSomeAnd (given_verdict judged) (λ v. IsNamed v × (self.now ≡ fields_of v))) }
        ensures none { IfNone result (IsNoVerdict self.now) }
    {
        if *self == GateVerdict::accepted() {
            return Some(Ok(()));
        }
        let refusal = self.refusal()?;
        if GateVerdict::of_refusal(refusal)? == *self {
            Some(Err(refusal))
        } else {
            None
        }
    }
}
