//! An explanation as the fields of `gate_explanation` of gate.h.

ghost use Rattle.std.specs.Prelude.{◌≡◌, IfSome, option_map};
ghost use Rattle.explanation.specs.Fields.{body_told, item_told, kind_told, opcode_told, span_told, section_told};
ghost use Rattle.explanation.specs.Told.{verdict_told};
ghost use Rattle.c_api.specs.Explained.{form_code, kind_code, fields_with, short, wide};
ghost use Rattle.c_api.specs.Verdicts.{fields_of, status_of};

use crate::judged::GateVerdict;
use crate::status::{MODULE_REFUSED, OK};
use explain::{Explanation, ExplanationKind, Form, Span};

/// An explanation. Of what is not told the field is the greatest of its width.
#[repr(C)]
#[derive(Clone, Copy)]
pub struct GateExplanation {
    pub verdict: GateVerdict,
    /// A kind, whose hundreds are the kind of the verdict.
    pub why: u32,
    /// The id of the section in which the rest lies.
    pub section: u32,
    /// The first byte of the token that is refused, or with which no token begins.
    pub opcode: u32,
    /// The position of the refused item in its section, from 0; none of a body.
    pub item: u64,
    /// The bytes of the refused body.
    pub body_from: u64,
    pub body_to: u64,
    /// The bytes of the refused token; the same offset twice where reading stopped.
    pub from: u64,
    pub to: u64,
}

const _: () = prove!(size_of::<GateExplanation>() == 80 && align_of::<GateExplanation>() == 8);

/// The code of bytes of another form, as `gate_why` of gate.h has it.
fn code_of_form(form: Form) -> u32
    ensures { result ≡ form_code form }
{
    match form {
        Form::Text => 201,
        Form::Gzip => 202,
        Form::Component => 207,
        Form::Xz => 208,
        Form::Zstd => 209,
        Form::Elf => 210,
        Form::Objects => 211,
        Form::Bitcode => 212,
        Form::Markup => 213,
        Form::Json => 214,
        Form::Zip => 215,
        Form::Base64 => 216,
        Form::Utf16 => 217,
        Form::ByteOrderMark => 218,
        Form::LfsPointer => 219,
    }
}

/// The code of a kind, as `gate_why` of gate.h has it.
fn explanation_kind_code(kind: ExplanationKind) -> u32
    ensures { result ≡ kind_code kind }
{
    match kind {
        ExplanationKind::Accepted | ExplanationKind::Memory => 0,
        ExplanationKind::TooLarge => 100,
        ExplanationKind::OtherForm(form) => code_of_form(form),
        ExplanationKind::ShortHeader => 203,
        ExplanationKind::Magic => 204,
        ExplanationKind::Version => 205,
        ExplanationKind::Sections => 206,
        ExplanationKind::Rule => 300,
        ExplanationKind::BodyMalformed => 400,
        ExplanationKind::Locals => 401,
        ExplanationKind::Token => 402,
        ExplanationKind::Else => 403,
        ExplanationKind::Left => 404,
        ExplanationKind::ShortBody => 405,
        ExplanationKind::TooManyLocals => 500,
        ExplanationKind::IllTyped => 600,
    }
}

/// A number of 64 bits.
fn wide_number(told: Option<usize>) -> u64
    ensures { result ≡ wide told }
{
    match told {
        Some(number) => number as u64,
        None => u64::MAX,
    }
}

/// A number of 32 bits.
fn short_number(told: Option<u8>) -> u32
    ensures { result ≡ short told }
{
    match told {
        Some(number) => u32::from(number),
        None => u32::MAX,
    }
}

/// The fields of the verdict; `None` where memory was refused.
fn verdict_of(found: &Explanation<'_>) -> Option<GateVerdict>
    ensures { result ≡ option_map fields_of (verdict_told found.now) }
{
    match found.judged() {
        Ok(()) => Some(GateVerdict::accepted()),
        Err(refusal) => GateVerdict::of_refusal(refusal),
    }
}

/// The status that goes with the verdict.
pub(crate) fn status_with(found: &Explanation<'_>) -> u32
    ensures { IfSome (verdict_told found.now) (λ v. result ≡ status_of v) }
{
    match found.judged() {
        Ok(()) => OK,
        Err(_) => MODULE_REFUSED,
    }
}

/// The offset of the first byte of a span.
fn first_of(span: Option<Span>) -> u64
    ensures { result ≡ wide (option_map (λ s. s.from) span) }
{
    match span {
        Some(span) => span.from as u64,
        None => u64::MAX,
    }
}

/// The offset after the last byte of a span.
fn last_of(span: Option<Span>) -> u64
    ensures { result ≡ wide (option_map (λ s. s.to) span) }
{
    match span {
        Some(span) => span.to as u64,
        None => u64::MAX,
    }
}

impl GateExplanation {
    /// The fields of an explanation; `None` where memory was refused.
    pub(crate) fn of(found: &Explanation<'_>) -> Option<GateExplanation>
        ensures { result ≡ option_map (fields_with found.now) (verdict_told found.now) }
    {
        let (body, span) = (found.body(), found.span());
        Some(GateExplanation {
            verdict: verdict_of(found)?,
            why: explanation_kind_code(found.kind()),
            section: short_number(found.section()),
            opcode: short_number(found.opcode()),
            item: wide_number(found.item()),
            body_from: first_of(body),
            body_to: last_of(body),
            from: first_of(span),
            to: last_of(span),
        })
    }
}
