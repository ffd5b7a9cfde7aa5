//! What numeric operators take and leave (3.3.1).
ghost use Rattle.std.specs.Prelude.{◌≡◌, [], ◌∷◌};
ghost use Rattle.wsyntax.specs.declared.operator_rows.Arity.TheVariants.{One, Two};
ghost use Rattle.wsyntax.specs.Row.{operands_in, results_in};
ghost use Rattle.wsyntax.specs.Execution.Start.{any, is_float, is_float_operator};
ghost use Rattle.wsyntax.specs.Table.{num_op};
ghost use Rattle.wsyntax.specs.Validation.Typing.{operands as operands_of, results as results_of};

use crate::instructions::Operator;
use crate::types::ValType::{self, F32, F64, I32, I64};

/// How many operands a numeric operator takes.
#[derive(Clone, Copy, PartialEq, Eq)]
pub enum Arity {
    One,
    Two,
}

/// The type of a numeric operator (3.3.1): its operands are of one type, and it leaves one result.
#[derive(Clone, Copy, PartialEq, Eq)]
pub struct OperatorRow {
    pub arity: Arity,
    pub operand: ValType,
    pub result: ValType,
}

#[inline(always)]
fn one(operand: ValType, leaves: ValType) -> OperatorRow
    ensures { result ≡ record { arity = One; operand = operand; result = leaves } }
{
    OperatorRow {
        arity: Arity::One,
        operand,
        result: leaves,
    }
}

#[inline(always)]
fn two(operand: ValType, leaves: ValType) -> OperatorRow
    ensures { result ≡ record { arity = Two; operand = operand; result = leaves } }
{
    OperatorRow {
        arity: Arity::Two,
        operand,
        result: leaves,
    }
}

impl Operator {
    /// The operator's row in the table of operators. The one place where the code says what an operator takes and leaves.
    #[inline(always)]
    pub fn row(self) -> OperatorRow
        ensures operands { operands_in result ≡ operands_of (num_op self) }
        ensures results { results_in result ≡ results_of (num_op self) }
        ensures floats { any is_float (result.operand ∷ result.result ∷ []) ≡ is_float_operator (num_op self) }
    {
        match self {
            Operator::I32Eqz
            | Operator::I32Clz
            | Operator::I32Ctz
            | Operator::I32Popcnt
            | Operator::I32Extend8S
            | Operator::I32Extend16S => one(I32, I32),
            Operator::I32Eq
            | Operator::I32Ne
            | Operator::I32LtS
            | Operator::I32LtU
            | Operator::I32GtS
            | Operator::I32GtU
            | Operator::I32LeS
            | Operator::I32LeU
            | Operator::I32GeS
            | Operator::I32GeU
            | Operator::I32Add
            | Operator::I32Sub
            | Operator::I32Mul
            | Operator::I32DivS
            | Operator::I32DivU
            | Operator::I32RemS
            | Operator::I32RemU
            | Operator::I32And
            | Operator::I32Or
            | Operator::I32Xor
            | Operator::I32Shl
            | Operator::I32ShrS
            | Operator::I32ShrU
            | Operator::I32Rotl
            | Operator::I32Rotr => two(I32, I32),
            Operator::I64Eqz | Operator::I32WrapI64 => one(I64, I32),
            Operator::I64Eq
            | Operator::I64Ne
            | Operator::I64LtS
            | Operator::I64LtU
            | Operator::I64GtS
            | Operator::I64GtU
            | Operator::I64LeS
            | Operator::I64LeU
            | Operator::I64GeS
            | Operator::I64GeU => two(I64, I32),
            Operator::F32Eq
            | Operator::F32Ne
            | Operator::F32Lt
            | Operator::F32Gt
            | Operator::F32Le
            | Operator::F32Ge => two(F32, I32),
            Operator::F64Eq
            | Operator::F64Ne
            | Operator::F64Lt
            | Operator::F64Gt
            | Operator::F64Le
            | Operator::F64Ge => two(F64, I32),
            Operator::I64Clz
            | Operator::I64Ctz
            | Operator::I64Popcnt
            | Operator::I64Extend8S
            | Operator::I64Extend16S
            | Operator::I64Extend32S => one(I64, I64),
            Operator::I64Add
            | Operator::I64Sub
            | Operator::I64Mul
            | Operator::I64DivS
            | Operator::I64DivU
            | Operator::I64RemS
            | Operator::I64RemU
            | Operator::I64And
            | Operator::I64Or
            | Operator::I64Xor
            | Operator::I64Shl
            | Operator::I64ShrS
            | Operator::I64ShrU
            | Operator::I64Rotl
            | Operator::I64Rotr => two(I64, I64),
            Operator::F32Abs
            | Operator::F32Neg
            | Operator::F32Ceil
            | Operator::F32Floor
            | Operator::F32Trunc
            | Operator::F32Nearest
            | Operator::F32Sqrt => one(F32, F32),
            Operator::F32Add
            | Operator::F32Sub
            | Operator::F32Mul
            | Operator::F32Div
            | Operator::F32Min
            | Operator::F32Max
            | Operator::F32Copysign => two(F32, F32),
            Operator::F64Abs
            | Operator::F64Neg
            | Operator::F64Ceil
            | Operator::F64Floor
            | Operator::F64Trunc
            | Operator::F64Nearest
            | Operator::F64Sqrt => one(F64, F64),
            Operator::F64Add
            | Operator::F64Sub
            | Operator::F64Mul
            | Operator::F64Div
            | Operator::F64Min
            | Operator::F64Max
            | Operator::F64Copysign => two(F64, F64),
            Operator::I32TruncF32S | Operator::I32TruncF32U | Operator::I32ReinterpretF32 => one(
                F32, I32,
            ),
            Operator::I32TruncF64S | Operator::I32TruncF64U => one(F64, I32),
            Operator::I64ExtendI32S | Operator::I64ExtendI32U => one(I32, I64),
            Operator::I64TruncF32S | Operator::I64TruncF32U => one(F32, I64),
            Operator::I64TruncF64S | Operator::I64TruncF64U | Operator::I64ReinterpretF64 => one(
                F64, I64,
            ),
            Operator::F32ConvertI32S | Operator::F32ConvertI32U | Operator::F32ReinterpretI32 =>
                one(I32, F32),
            Operator::F32ConvertI64S | Operator::F32ConvertI64U => one(I64, F32),
            Operator::F32DemoteF64 => one(F64, F32),
            Operator::F64ConvertI32S | Operator::F64ConvertI32U => one(I32, F64),
            Operator::F64ConvertI64S | Operator::F64ConvertI64U | Operator::F64ReinterpretI64 =>
                one(I64, F64),
            Operator::F64PromoteF32 => one(F32, F64),
        }
    }
}
