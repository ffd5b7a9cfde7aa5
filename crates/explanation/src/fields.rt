//! The fields of an explanation, one by one, for readers that no variant concerns. `None` says that a field is not told.
ghost use Rattle.std.specs.Prelude.{◌≡◌, option_map};
ghost use Rattle.explanation.specs.Fields.{at_offset, item_of_part, kind_of_fault, kind_of_no_module};
ghost use Rattle.explanation.specs.Fields.{kind_of_stop, opcode_of_fault, opcode_of_stop, span_of_fault, span_of_no_module};

use crate::broken_item::BrokenItem;
use crate::explanation::{
    BodyExplanation, Explanation, Form, NoModule, Span, StopLocation, Stopped,
};
use crate::shell_location::{Location, SectionPart};

/// The id of the section of bodies (5.5.13).
const CODE_SECTION: u8 = 10;

/// What is said of a module, by its kind.
#[derive(Clone, Copy, PartialEq, Eq)]
pub enum ExplanationKind {
    Accepted,
    TooLarge,
    /// The bytes begin as a file of that form does.
    OtherForm(Form),
    /// They are fewer than the eight of the magic and the version.
    ShortHeader,
    /// One of the first four is not that of the magic.
    Magic,
    /// One of the next four is not that of the version.
    Version,
    /// What follows are not the sections of a module.
    Sections,
    /// A module rule is broken.
    Rule,
    /// A body is malformed, and where is not known.
    BodyMalformed,
    /// Its declared locals cannot be read.
    Locals,
    /// No token begins with the bytes that follow.
    Token,
    /// An `else` stands in no `if`.
    Else,
    /// Bytes are left after its last `end`.
    Left,
    /// It ends before its last `end`.
    ShortBody,
    /// It declares more than 100,000 locals.
    TooManyLocals,
    /// It has no type.
    IllTyped,
    /// An allocation was refused; nothing is said of the module.
    Memory,
}

/// The kind of bytes that spell no module.
fn no_module_kind(what: NoModule) -> ExplanationKind
    ensures { result ≡ kind_of_no_module what }
{
    match what {
        NoModule::Short => ExplanationKind::ShortHeader,
        NoModule::Magic {
            form: Some(form),
            ..
        }
        | NoModule::Version {
            form: Some(form),
            ..
        } => ExplanationKind::OtherForm(form),
        NoModule::Magic { form: None, .. } => ExplanationKind::Magic,
        NoModule::Version { form: None, .. } => ExplanationKind::Version,
        NoModule::Sections { .. } => ExplanationKind::Sections,
    }
}

/// The kind of a body that is malformed for that.
fn stop_kind(why: Stopped) -> ExplanationKind
    ensures { result ≡ kind_of_stop why }
{
    match why {
        Stopped::Locals => ExplanationKind::Locals,
        Stopped::Token => ExplanationKind::Token,
        Stopped::Else => ExplanationKind::Else,
        Stopped::Left => ExplanationKind::Left,
        Stopped::Short => ExplanationKind::ShortBody,
    }
}

/// The kind of a body that is refused.
fn fault_kind(fault: &BodyExplanation<'_>) -> ExplanationKind
    ensures { result ≡ kind_of_fault fault.now }
{
    match fault {
        BodyExplanation::Malformed {
            stop: Some(stop),
            ..
        } => stop_kind(stop.why),
        BodyExplanation::Malformed { stop: None, .. } => ExplanationKind::BodyMalformed,
        BodyExplanation::TooManyLocals { .. } => ExplanationKind::TooManyLocals,
        BodyExplanation::IllTyped { .. } => ExplanationKind::IllTyped,
    }
}

/// No bytes at an offset: where reading stopped.
fn offset_alone(at: usize) -> Span
    ensures { result ≡ at_offset at }
{
    Span { from: at, to: at }
}

/// Where reading stopped of bytes that spell no module.
fn no_module_span(what: NoModule) -> Option<Span>
    ensures { result ≡ span_of_no_module what }
{
    match what {
        NoModule::Magic { at, .. } | NoModule::Version { at, .. } => Some(offset_alone(at)),
        NoModule::Sections {
            location: Some(location),
            ..
        } => Some(offset_alone(location.at)),
        _ => None,
    }
}

/// The id of the section where reading stopped.
fn section_id(location: &Location) -> Option<u8>
    ensures { result ≡ option_map (λ s. s.id) location.now.section }
{
    Some(location.section?.id)
}

/// The position of an item in its section.
fn item_position(part: SectionPart) -> Option<usize>
    ensures { result ≡ item_of_part part }
{
    match part {
        SectionPart::Item(position) => Some(position as usize),
        _ => None,
    }
}

/// Where an item begins that breaks a rule.
fn item_begins(item: &BrokenItem<'_>) -> Option<Span>
    ensures { result ≡ option_map at_offset item.now.at }
{
    Some(offset_alone(item.at?))
}

/// The bytes of the token that is refused, or where reading stopped.
fn fault_span(fault: &BodyExplanation<'_>) -> Option<Span>
    ensures { result ≡ span_of_fault fault.now }
{
    match fault {
        BodyExplanation::Malformed {
            stop: Some(stop),
            ..
        } => Some(offset_alone(stop.at)),
        BodyExplanation::IllTyped {
            found: Some(found),
            ..
        } => Some(found.span),
        _ => None,
    }
}

/// The byte that no token begins with, or that of an `else` that stands in no `if`.
fn stop_opcode(stop: &StopLocation<'_>) -> Option<u8>
    ensures { result ≡ opcode_of_stop stop.now.why stop.now.rest.now }
{
    match stop.why {
        Stopped::Token | Stopped::Else => stop.rest.first().copied(),
        _ => None,
    }
}

/// The first byte of the token that is refused, or where reading stopped.
fn fault_opcode(fault: &BodyExplanation<'_>) -> Option<u8>
    ensures { result ≡ opcode_of_fault fault.now }
{
    match fault {
        BodyExplanation::Malformed {
            stop: Some(stop),
            ..
        } => stop_opcode(stop),
        BodyExplanation::IllTyped {
            found: Some(found),
            ..
        } => Some(found.opcode),
        _ => None,
    }
}

impl Explanation<'_> {
    ghost use Rattle.std.specs.Prelude.{◌≡◌, option_map};
    ghost use Rattle.explanation.specs.Fields.{body_told, item_told, kind_told, opcode_told, span_told, section_told};

    /// What is said, by its kind.
    pub fn kind(&self) -> ExplanationKind
        ensures { result ≡ kind_told self.now }
    {
        match self {
            Explanation::Accepted => ExplanationKind::Accepted,
            Explanation::TooLarge { .. } => ExplanationKind::TooLarge,
            Explanation::Malformed(what) => no_module_kind(*what),
            Explanation::Rule { .. } => ExplanationKind::Rule,
            Explanation::Body(body) => fault_kind(&body.fault),
            Explanation::Memory => ExplanationKind::Memory,
        }
    }

    /// The bytes of the module that the refusal is about: a token; none where reading stopped, or where an item begins.
    pub fn span(&self) -> Option<Span>
        ensures { result ≡ span_told self.now }
    {
        match self {
            Explanation::Malformed(what) => no_module_span(*what),
            Explanation::Rule {
                item: Some(item),
                ..
            } => item_begins(item),
            Explanation::Body(body) => fault_span(&body.fault),
            _ => None,
        }
    }

    /// The offset of the first of them.
    pub fn offset(&self) -> Option<usize>
        ensures { result ≡ option_map (λ p. p.from) (span_told self.now) }
    {
        Some(self.span()?.from)
    }

    /// The offset after the last of them.
    pub fn end(&self) -> Option<usize>
        ensures { result ≡ option_map (λ p. p.to) (span_told self.now) }
    {
        Some(self.span()?.to)
    }

    /// The id of the section in which they stand (5.5.2).
    pub fn section(&self) -> Option<u8>
        ensures { result ≡ section_told self.now }
    {
        match self {
            Explanation::Body(_) => Some(CODE_SECTION),
            Explanation::Malformed(
                NoModule::Sections {
                    location: Some(location),
                    ..
                },
            ) => section_id(location),
            Explanation::Rule {
                item: Some(item),
                ..
            } => Some(item.section),
            _ => None,
        }
    }

    /// The position of the refused item in its section, from 0; of bodies the verdict has the function instead.
    pub fn item(&self) -> Option<usize>
        ensures { result ≡ item_told self.now }
    {
        match self {
            Explanation::Malformed(
                NoModule::Sections {
                    location: Some(location),
                    ..
                },
            ) => item_position(location.part),
            Explanation::Rule {
                item: Some(item),
                ..
            } => Some(item.position),
            _ => None,
        }
    }

    /// The first byte of the token that is refused, or with which no token begins.
    pub fn opcode(&self) -> Option<u8>
        ensures { result ≡ opcode_told self.now }
    {
        match self {
            Explanation::Body(body) => fault_opcode(&body.fault),
            _ => None,
        }
    }

    /// The bytes of the body that is refused.
    pub fn body(&self) -> Option<Span>
        ensures { result ≡ body_told self.now }
    {
        match self {
            Explanation::Body(body) => body.span,
            _ => None,
        }
    }
}
