//! Constant expressions (3.3.7.2).
ghost use Rattle.std.specs.Prelude.{◌≡◌, ◌↔◌, IsTrue, Some, option_and_then};
ghost use Rattle.wsyntax.specs.Modules.{initial_tokens};
ghost use Rattle.wsyntax.specs.Validation.Rules.{ConstantOf};
ghost use Rattle.wcontext.specs.Constants.{constant_type};

use wsyntax::{ConstExpr, GlobalType, Token, ValType};

/// The type of the value that an instruction of a constant expression leaves (3.3.7.2), under these imported globals.
fn constant_type(token: &Token, globals: &[GlobalType]) -> Option<ValType>
    ensures { result ≡ constant_type globals.now token.now }
{
    match *token {
        Token::I32Const(_) => Some(ValType::I32),
        Token::I64Const(_) => Some(ValType::I64),
        Token::F32Const(_) => Some(ValType::F32),
        Token::F64Const(_) => Some(ValType::F64),
        Token::GlobalGet(index) => match globals.get(index as usize) {
            Some(global) if !global.mutable => Some(global.val_type),
            _ => None,
        },
        _ => None,
    }
}

/// Whether the instruction of an expression, where it is one constant or one `global.get`, leaves a value of that type, under
/// these imported globals.
fn leaves(only: Option<Token>, of_type: ValType, globals: &[GlobalType]) -> bool
    ensures { IsTrue result ↔ (option_and_then (constant_type globals.now) only ≡ Some of_type) }
{
    match only {
        Some(token) => constant_type(&token, globals) == Some(of_type),
        None => false,
    }
}

/// Whether an expression is a constant expression of that type (3.3.7.2), under these imported globals.
pub fn is_constant(initial: &ConstExpr<'_>, of_type: ValType, globals: &[GlobalType]) -> bool
    ensures { IsTrue result ↔ ConstantOf globals.now of_type (initial_tokens initial.now) }
{
    leaves(initial.constant_instruction(), of_type, globals)
}

/// Whether the offset of a segment is a constant expression of type i32 (3.3.7.2), under these imported globals.
/// A constant i32, as nearly each offset is, is one in place.
#[inline(always)]
pub fn is_offset(offset: &ConstExpr<'_>, globals: &[GlobalType]) -> bool
    ensures { IsTrue result ↔ ConstantOf globals.now ValType.I32 (initial_tokens offset.now) }
{
    match offset {
        ConstExpr::I32Const(_) => true,
        _ => leaves(offset.constant_instruction(), ValType::I32, globals),
    }
}
