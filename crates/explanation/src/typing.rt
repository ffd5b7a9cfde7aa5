//! What is told of an ill-typed token: what it takes, what it finds, which tokens gave it, which stand before it, and in which blocks it
//! stands.

use crate::explanation::{FoundToken, FunctionSignature};
use wsyntax::{Token, ValType};

/// What opened a block.
#[derive(Clone, Copy, PartialEq, Eq)]
pub enum BlockKind {
    Block,
    Loop,
    If,
    Else,
}

/// The token that opened a block: the offset of its first byte in the module.
#[derive(Clone, Copy)]
pub struct Opening {
    pub kind: BlockKind,
    pub at: usize,
}

/// A block that is open.
#[derive(Drop)]
pub struct OpenBlock {
    pub opening: Option<Opening>,
    pub signature: FunctionSignature,
}

/// Blocks that are open: how many, and the outermost of them, the outermost first, no more than eight.
#[derive(Drop)]
pub struct OpenBlocks {
    pub count: usize,
    pub outermost: Vec<Opening>,
}

/// A token that gave operands: its position, and the first of its bytes; of an `end` the token that opened its block.
#[derive(Clone, Copy)]
pub struct Giver {
    pub position: usize,
    /// The offset of its first byte in the module; of an `end` that of the token that opened its block.
    pub at: usize,
    pub opcode: u8,
    pub token: Token,
    pub ends: Option<Opening>,
    /// The lowest operand that it gave of those found, the lowest of which is 0.
    pub first: usize,
    /// And how many of them, one above another.
    pub count: usize,
}

/// A token before an ill-typed one.
#[derive(Drop)]
pub struct PassedToken {
    pub position: usize,
    pub found: FoundToken,
    /// The topmost operands that it puts, no more than 64; of one that opens a block those that the block begins with. `None` is one of
    /// which its rule does not say the type.
    pub leaves: Vec<Option<ValType>>,
}

/// What is told of an ill-typed token. Of operands the lowest comes first, so the last is on top.
#[derive(Drop)]
pub struct Typing {
    /// What it takes; `None` is an operand of any type. Of a token that names what is not there neither `takes` nor `finds` is told.
    pub takes: Vec<Option<ValType>>,
    /// The topmost operands of the innermost block, as many as it takes, or all where there are fewer; at the end of a block also
    /// those that are left over, no more than 64. `None` is an operand of unreachable code, of which the type is not known.
    pub finds: Vec<Option<ValType>>,
    /// The tokens that gave these.
    pub given_by: Vec<Giver>,
    /// The tokens right before it, in their order, no more than four.
    pub passed: Vec<PassedToken>,
    /// The open blocks, the innermost first, no more than eight. The function is none.
    pub within: Vec<OpenBlock>,
}
