//! Readers of the instructions that bodies are mostly made of. Where one answers None, it saw another instruction or no
//! well-formed one: that says nothing, and the caller goes on with `token_at`, which decides.
ghost use Rattle.std.specs.Prelude.{◌≡◌, ◌∷◌, Some, IfSome};
ghost use Rattle.wdecode.specs.Gives.{ReadsPlain, ReadsBracket};
ghost use Rattle.wsyntax.specs.Table.{opcode_of};
ghost use Rattle.wsyntax.specs.Binary.Types.{block_type};

use crate::op;
use wsyntax::{BlockType, Label, Load, Opcode, Store, Token, ValType};

/// The load whose opcode is `byte`.
#[inline(always)]
#[tactic(auto, unfolding(wsyntax::specs::Table::opcode_of))]
fn load_of(byte: u8) -> Option<Load>
    ensures { IfSome result (λ x. opcode_of byte ≡ Some (Opcode.Load x)) }
{
    match byte {
        op::I32_LOAD => Some(Load::I32Load),
        op::I64_LOAD => Some(Load::I64Load),
        op::F32_LOAD => Some(Load::F32Load),
        op::F64_LOAD => Some(Load::F64Load),
        op::I32_LOAD8_S => Some(Load::I32Load8S),
        op::I32_LOAD8_U => Some(Load::I32Load8U),
        op::I32_LOAD16_S => Some(Load::I32Load16S),
        op::I32_LOAD16_U => Some(Load::I32Load16U),
        op::I64_LOAD8_S => Some(Load::I64Load8S),
        op::I64_LOAD8_U => Some(Load::I64Load8U),
        op::I64_LOAD16_S => Some(Load::I64Load16S),
        op::I64_LOAD16_U => Some(Load::I64Load16U),
        op::I64_LOAD32_S => Some(Load::I64Load32S),
        op::I64_LOAD32_U => Some(Load::I64Load32U),
        _ => None,
    }
}

/// The store whose opcode is `byte`.
#[inline(always)]
#[tactic(auto, unfolding(wsyntax::specs::Table::opcode_of))]
fn store_of(byte: u8) -> Option<Store>
    ensures { IfSome result (λ x. opcode_of byte ≡ Some (Opcode.Store x)) }
{
    match byte {
        op::I32_STORE => Some(Store::I32Store),
        op::I64_STORE => Some(Store::I64Store),
        op::F32_STORE => Some(Store::F32Store),
        op::F64_STORE => Some(Store::F64Store),
        op::I32_STORE8 => Some(Store::I32Store8),
        op::I32_STORE16 => Some(Store::I32Store16),
        op::I64_STORE8 => Some(Store::I64Store8),
        op::I64_STORE16 => Some(Store::I64Store16),
        op::I64_STORE32 => Some(Store::I64Store32),
        _ => None,
    }
}

/// The instruction of a local or a global whose opcode is `byte`, and the bytes after it.
#[inline(always)]
pub fn variable_at(byte: u8, bytes: &[u8]) -> Option<(Token, &[u8])>
    ensures { IfSome result (λ x. ReadsPlain (byte ∷ bytes.now) x.0 x.1.now) }
{
    let (index, rest) = wnum::front_u32(bytes)?;
    match byte {
        op::LOCAL_GET => Some((Token::LocalGet(index), rest)),
        op::LOCAL_SET => Some((Token::LocalSet(index), rest)),
        op::LOCAL_TEE => Some((Token::LocalTee(index), rest)),
        op::GLOBAL_GET => Some((Token::GlobalGet(index), rest)),
        op::GLOBAL_SET => Some((Token::GlobalSet(index), rest)),
        _ => None,
    }
}

/// The load whose opcode is `byte`, and the bytes after it.
#[inline(always)]
pub fn load_at(byte: u8, bytes: &[u8]) -> Option<(Token, &[u8])>
    ensures { IfSome result (λ x. ReadsPlain (byte ∷ bytes.now) x.0 x.1.now) }
{
    let load = load_of(byte)?;
    let (align, rest) = wnum::front_u32(bytes)?;
    let (offset, rest) = wnum::front_u32(rest)?;
    Some((
        Token::Load {
            load,
            align,
            offset,
        },
        rest,
    ))
}

/// The store whose opcode is `byte`, and the bytes after it.
#[inline(always)]
pub fn store_at(byte: u8, bytes: &[u8]) -> Option<(Token, &[u8])>
    ensures { IfSome result (λ x. ReadsPlain (byte ∷ bytes.now) x.0 x.1.now) }
{
    let store = store_of(byte)?;
    let (align, rest) = wnum::front_u32(bytes)?;
    let (offset, rest) = wnum::front_u32(rest)?;
    Some((
        Token::Store {
            store,
            align,
            offset,
        },
        rest,
    ))
}

/// The numeric instruction whose opcode is `byte`, and the bytes after it.
#[inline(always)]
pub fn numeric_at(byte: u8, bytes: &[u8]) -> Option<(Token, &[u8])>
    ensures { IfSome result (λ x. ReadsPlain (byte ∷ bytes.now) x.0 x.1.now) }
{
    match Opcode::from_byte(byte) {
        Some(Opcode::Numeric(operator)) => Some((Token::Numeric(operator), bytes)),
        _ => None,
    }
}

/// The branch `br`, its opcode apart, and the bytes after it.
#[inline(always)]
pub fn br(bytes: &[u8]) -> Option<(Token, &[u8])>
    ensures { IfSome result (λ x. ReadsPlain (0x0C ∷ bytes.now) x.0 x.1.now) }
{
    let (label, rest) = wnum::front_u32(bytes)?;
    Some((Token::Br(Label::unresolved(label)), rest))
}

/// The branch `br_if`, its opcode apart, and the bytes after it.
#[inline(always)]
pub fn br_if(bytes: &[u8]) -> Option<(Token, &[u8])>
    ensures { IfSome result (λ x. ReadsPlain (0x0D ∷ bytes.now) x.0 x.1.now) }
{
    let (label, rest) = wnum::front_u32(bytes)?;
    Some((Token::BrIf(Label::unresolved(label)), rest))
}

/// A call, its opcode apart, and the bytes after it.
#[inline(always)]
pub fn call_at(bytes: &[u8]) -> Option<(Token, &[u8])>
    ensures { IfSome result (λ x. ReadsPlain (0x10 ∷ bytes.now) x.0 x.1.now) }
{
    let (index, rest) = wnum::front_u32(bytes)?;
    Some((Token::Call(index), rest))
}

/// A constant i32, its opcode apart, and the bytes after it.
#[inline(always)]
pub fn i32_const(bytes: &[u8]) -> Option<(Token, &[u8])>
    ensures { IfSome result (λ x. ReadsPlain (0x41 ∷ bytes.now) x.0 x.1.now) }
{
    let (value, rest) = wnum::front_s32(bytes)?;
    Some((Token::I32Const(value), rest))
}

/// A constant i64, its opcode apart, and the bytes after it.
#[inline(always)]
pub fn i64_const(bytes: &[u8]) -> Option<(Token, &[u8])>
    ensures { IfSome result (λ x. ReadsPlain (0x42 ∷ bytes.now) x.0 x.1.now) }
{
    let (value, rest) = wnum::front_s64(bytes)?;
    Some((Token::I64Const(value), rest))
}

/// A block type of one byte, and the bytes after it.
#[inline(always)]
#[tactic(auto, unfolding(wsyntax::specs::Binary::Types::block_type))]
fn short_block_at(bytes: &[u8]) -> Option<(BlockType, &[u8])>
    ensures { IfSome result (λ x. block_type.read bytes.now ≡ Some (x.0, x.1.now)) }
{
    match bytes {
        [0x40, rest @ ..] => Some((BlockType::Empty, rest)),
        [0x7F, rest @ ..] => Some((BlockType::Value(ValType::I32), rest)),
        [0x7E, rest @ ..] => Some((BlockType::Value(ValType::I64), rest)),
        [0x7D, rest @ ..] => Some((BlockType::Value(ValType::F32), rest)),
        [0x7C, rest @ ..] => Some((BlockType::Value(ValType::F64), rest)),
        _ => None,
    }
}

/// The beginning of a block, a loop or an if whose opcode is `byte`, where its block type is of one byte, and the bytes
/// after it.
#[inline(always)]
pub fn block_start(byte: u8, bytes: &[u8]) -> Option<(Token, &[u8])>
    ensures { IfSome result (λ x. ReadsBracket (byte ∷ bytes.now) x.0 x.1.now) }
{
    let (block, rest) = short_block_at(bytes)?;
    match byte {
        op::BLOCK => Some((Token::Block(block), rest)),
        op::LOOP => Some((Token::Loop(block), rest)),
        op::IF => Some((Token::If { block, target: 0 }, rest)),
        _ => None,
    }
}

/// The instruction at the front, where it is one of those that bodies are mostly made of, and the bytes after it.
#[inline(always)]
pub(crate) fn frequent_at(bytes: &[u8]) -> Option<(Token, &[u8])>
    ensures { IfSome result (λ x. ReadsPlain bytes.now x.0 x.1.now) }
{
    let [byte, rest @ ..] = bytes else {
        return None;
    };
    match *byte {
        op::BR => br(rest),
        op::BR_IF => br_if(rest),
        op::CALL => call_at(rest),
        op::LOCAL_GET..=op::GLOBAL_SET => variable_at(*byte, rest),
        op::I32_LOAD..=op::I64_LOAD32_U => load_at(*byte, rest),
        op::I32_STORE..=op::I64_STORE32 => store_at(*byte, rest),
        op::I32_CONST => i32_const(rest),
        op::I64_CONST => i64_const(rest),
        op::I32_EQZ..=op::I64_EXTEND32_S => numeric_at(*byte, rest),
        _ => None,
    }
}
