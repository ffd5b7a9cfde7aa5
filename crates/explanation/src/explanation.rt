//! What is said of a module: its verdict, and of a refusal where and why.

use crate::broken_item::BrokenItem;
use crate::cause::Cause;
use crate::shell_location::Location;
use crate::typing::{OpenBlocks, Typing};
use refusal::{BodyRefusal, Refusal};
use wsyntax::{Token, ValType};

/// Bytes of a module: those from offset `from` on, up to offset `to`.
#[derive(Clone, Copy, PartialEq, Eq)]
pub struct Span {
    pub from: usize,
    pub to: usize,
}

/// The type of a function: the types of its parameters and of its results.
#[derive(Drop)]
pub struct FunctionSignature {
    pub params: Vec<ValType>,
    pub results: Vec<ValType>,
}

/// Another form of a file, by its first bytes.
#[derive(Clone, Copy, PartialEq, Eq)]
pub enum Form {
    /// The text format.
    Text,
    /// An archive of gzip.
    Gzip,
    /// A component of the component model.
    Component,
    /// An archive of xz.
    Xz,
    /// An archive of Zstandard.
    Zstd,
    /// An object file or a program in the form ELF.
    Elf,
    /// An archive of object files, as `ar` makes them.
    Objects,
    /// Bitcode of LLVM.
    Bitcode,
    /// A web page, or other markup.
    Markup,
    /// JSON.
    Json,
    /// An archive of zip.
    Zip,
    /// A module in base64.
    Base64,
    /// Text in UTF-16.
    Utf16,
    /// Text in UTF-8 with a byte order mark.
    ByteOrderMark,
    /// A pointer of Git LFS to a file.
    LfsPointer,
}

/// Where some bytes stand: the offset of the first of them, and at how many places.
#[derive(Clone, Copy, PartialEq, Eq)]
pub struct Places {
    pub at: usize,
    pub count: usize,
}

/// What a refused file with the header of a module is, or what became of it on its way.
#[derive(Clone, Copy, PartialEq, Eq)]
pub enum Sign {
    /// An object file, which is not linked: it has a custom section named `linking`, or one whose name begins with `reloc.`.
    Object,
    /// It was read as text: it is UTF-8, and has `ef bf bd` there, which stands for bytes that are none.
    Replaced(Places),
    /// It was read as text: it has `0d 0a` there, and `0a` nowhere else.
    LineEnds(Places),
}

/// What bytes are that spell no module.
#[derive(Clone, Copy, PartialEq, Eq)]
pub enum NoModule {
    /// They are fewer than the eight of the magic and the version.
    Short,
    /// The byte at that offset, below 4, is not that of the magic; and of which other form the bytes are.
    Magic {
        at: usize,
        found: u8,
        form: Option<Form>,
    },
    /// The byte at that offset, from 4 to 7, is not that of the version; and of which other form the bytes are.
    Version {
        at: usize,
        found: u8,
        form: Option<Form>,
    },
    /// Magic and version are right, and what follows are not the sections of a module; and where reading stopped.
    Sections {
        location: Option<Location>,
        sign: Option<Sign>,
    },
}

/// Why reading a body stopped.
#[derive(Clone, Copy, PartialEq, Eq)]
pub enum Stopped {
    /// Its declared locals cannot be read.
    Locals,
    /// No token begins with the bytes that follow.
    Token,
    /// An `else` stands in no `if`.
    Else,
    /// Bytes are left after its last `end`.
    Left,
    /// It ends before its last `end`.
    Short,
}

/// Where reading a malformed body stopped.
#[derive(Clone, Copy)]
pub struct StopLocation<'a> {
    pub why: Stopped,
    /// How many tokens stand before.
    pub tokens: usize,
    /// The offset of the first byte that was not read, in the module.
    pub at: usize,
    /// The bytes of the body from there on.
    pub rest: &'a [u8],
}

/// A token of a body.
#[derive(Drop)]
pub struct FoundToken {
    /// Its bytes in the module.
    pub span: Span,
    /// The first of them.
    pub opcode: u8,
    pub token: Token,
    /// The labels of a branch table, its default after them; none of another token.
    pub targets: Vec<u32>,
}

/// A token that is ill typed, at that position of its body, and why.
#[derive(Drop)]
pub struct IllTypedToken {
    pub position: usize,
    pub found: FoundToken,
    pub typing: Typing,
    pub cause: Option<Cause>,
}

/// Why a body is refused. What is `None` could not be found; nothing false is said instead.
#[derive(Drop)]
pub enum BodyExplanation<'a> {
    /// Its bytes spell no body: where reading stopped, the blocks that are open where the body ends, and the first token before that
    /// is ill typed.
    Malformed {
        stop: Option<StopLocation<'a>>,
        unclosed: Option<OpenBlocks>,
        before: Option<IllTypedToken>,
    },
    /// It declares more than 100,000 locals, parameters aside: this number.
    TooManyLocals {
        count: Option<u64>,
    },
    /// It has no type. `position` is that of the first token that no completion can save, from 0; where the body ends before
    /// it, there is no such token.
    IllTyped {
        position: usize,
        found: Option<FoundToken>,
        typing: Option<Typing>,
        cause: Option<Cause>,
    },
}

/// A body that is refused, and its function.
#[derive(Drop)]
pub struct RefusedFunction<'a> {
    /// The index of the function, imported ones counted.
    pub func: u32,
    /// The bytes of the body in the module, its size in front of it apart.
    pub span: Option<Span>,
    /// The function's name in the custom section `name`: any bytes, and a hint.
    pub name: Option<&'a [u8]>,
    /// The name of the first export of the function.
    pub export: Option<&'a [u8]>,
    pub signature: Option<FunctionSignature>,
    /// The name of the function that the refused token calls: that in the custom section `name`, or of its first export.
    pub callee: Option<&'a [u8]>,
    pub fault: BodyExplanation<'a>,
    pub sign: Option<Sign>,
}

/// What is said of a module.
#[derive(Drop)]
pub enum Explanation<'a> {
    Accepted,
    /// It has more bytes than a module may have: this number.
    TooLarge {
        bytes: usize,
    },
    /// The bytes spell no module, the insides of bodies aside.
    Malformed(NoModule),
    /// The least broken module rule, from 2 to 13, and the first item that breaks it, where it could be found.
    Rule {
        rule: u32,
        item: Option<BrokenItem<'a>>,
        sign: Option<Sign>,
    },
    /// The first body that is refused.
    Body(RefusedFunction<'a>),
    /// An allocation was refused; nothing is said of the module.
    Memory,
}

impl BodyExplanation<'_> {
    ghost use Rattle.std.specs.Prelude.{◌≡◌};
    ghost use Rattle.explanation.specs.Told.{refusal_told};

    /// The refusal alone, without its locations.
    pub fn refusal(&self) -> BodyRefusal
        ensures { result ≡ refusal_told self.now }
    {
        match self {
            BodyExplanation::Malformed { .. } => BodyRefusal::Malformed,
            BodyExplanation::TooManyLocals { .. } => BodyRefusal::TooManyLocals,
            BodyExplanation::IllTyped { position, .. } => BodyRefusal::IllTyped { at: *position },
        }
    }
}

impl Explanation<'_> {
    ghost use Rattle.std.specs.Prelude.{◌≡◌, Some, MatchResult};
    ghost use Rattle.wsyntax.specs.Validation.Verdict.{Accepted as IsGood};
    ghost use Rattle.refusal.specs.Refusals.{verdict_of};
    ghost use Rattle.explanation.specs.Told.{verdict_told};

    /// The verdict: what `verdict::examine_alone` gives.
    pub fn judged(&self) -> Result<(), Refusal>
        ensures { MatchResult result (λ _. verdict_told self.now ≡ Some IsGood) (λ r. verdict_told self.now ≡ verdict_of r) }
    {
        match self {
            Explanation::Accepted => Ok(()),
            Explanation::TooLarge { .. } => Err(Refusal::TooLarge),
            Explanation::Malformed(_) => Err(Refusal::Malformed),
            Explanation::Rule { rule, .. } => Err(Refusal::Rule(*rule)),
            Explanation::Body(body) => Err(Refusal::Body {
                func: body.func,
                refusal: body.fault.refusal(),
            }),
            Explanation::Memory => Err(Refusal::Memory),
        }
    }
}
