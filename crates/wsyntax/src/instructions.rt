//! Instructions as flat tokens (2.4).
use crate::types::ValType;
use std::mem::size_of;

/// What a block takes and leaves, as it is spelled (2.4.5; `Index`, of a type, is of Core 2.0).
#[derive(Clone, Copy, PartialEq, Eq)]
pub enum BlockType {
    Empty,
    Value(ValType),
    Index(u32),
}

/// A numeric operator (2.4.1), in the order of the opcodes from `45` to `C4` (the last five are of Core 2.0).
#[derive(Clone, Copy, PartialEq, Eq)]
pub enum Operator {
    I32Eqz,
    I32Eq,
    I32Ne,
    I32LtS,
    I32LtU,
    I32GtS,
    I32GtU,
    I32LeS,
    I32LeU,
    I32GeS,
    I32GeU,
    I64Eqz,
    I64Eq,
    I64Ne,
    I64LtS,
    I64LtU,
    I64GtS,
    I64GtU,
    I64LeS,
    I64LeU,
    I64GeS,
    I64GeU,
    F32Eq,
    F32Ne,
    F32Lt,
    F32Gt,
    F32Le,
    F32Ge,
    F64Eq,
    F64Ne,
    F64Lt,
    F64Gt,
    F64Le,
    F64Ge,
    I32Clz,
    I32Ctz,
    I32Popcnt,
    I32Add,
    I32Sub,
    I32Mul,
    I32DivS,
    I32DivU,
    I32RemS,
    I32RemU,
    I32And,
    I32Or,
    I32Xor,
    I32Shl,
    I32ShrS,
    I32ShrU,
    I32Rotl,
    I32Rotr,
    I64Clz,
    I64Ctz,
    I64Popcnt,
    I64Add,
    I64Sub,
    I64Mul,
    I64DivS,
    I64DivU,
    I64RemS,
    I64RemU,
    I64And,
    I64Or,
    I64Xor,
    I64Shl,
    I64ShrS,
    I64ShrU,
    I64Rotl,
    I64Rotr,
    F32Abs,
    F32Neg,
    F32Ceil,
    F32Floor,
    F32Trunc,
    F32Nearest,
    F32Sqrt,
    F32Add,
    F32Sub,
    F32Mul,
    F32Div,
    F32Min,
    F32Max,
    F32Copysign,
    F64Abs,
    F64Neg,
    F64Ceil,
    F64Floor,
    F64Trunc,
    F64Nearest,
    F64Sqrt,
    F64Add,
    F64Sub,
    F64Mul,
    F64Div,
    F64Min,
    F64Max,
    F64Copysign,
    I32WrapI64,
    I32TruncF32S,
    I32TruncF32U,
    I32TruncF64S,
    I32TruncF64U,
    I64ExtendI32S,
    I64ExtendI32U,
    I64TruncF32S,
    I64TruncF32U,
    I64TruncF64S,
    I64TruncF64U,
    F32ConvertI32S,
    F32ConvertI32U,
    F32ConvertI64S,
    F32ConvertI64U,
    F32DemoteF64,
    F64ConvertI32S,
    F64ConvertI32U,
    F64ConvertI64S,
    F64ConvertI64U,
    F64PromoteF32,
    I32ReinterpretF32,
    I64ReinterpretF64,
    F32ReinterpretI32,
    F64ReinterpretI64,
    I32Extend8S,
    I32Extend16S,
    I64Extend8S,
    I64Extend16S,
    I64Extend32S,
}

/// A load (2.4.4), in the order of the opcodes from `28` to `35`.
#[derive(Clone, Copy, PartialEq, Eq)]
pub enum Load {
    I32Load,
    I64Load,
    F32Load,
    F64Load,
    I32Load8S,
    I32Load8U,
    I32Load16S,
    I32Load16U,
    I64Load8S,
    I64Load8U,
    I64Load16S,
    I64Load16U,
    I64Load32S,
    I64Load32U,
}

/// A store (2.4.4), in the order of the opcodes from `36` to `3E`.
#[derive(Clone, Copy, PartialEq, Eq)]
pub enum Store {
    I32Store,
    I64Store,
    F32Store,
    F64Store,
    I32Store8,
    I32Store16,
    I64Store8,
    I64Store16,
    I64Store32,
}

/// Where a branch goes on, as the check of its body writes it into the token. It is no part of the instruction.
#[derive(Clone, Copy, PartialEq, Eq)]
pub enum BranchTarget {
    /// At the token of position `target`, with `arity` operands kept above `height` others.
    Short { arity: u8, height: u16, target: u32 },
    /// It is this one of the body's long branches.
    Long(u32),
}

/// The label of a branch (2.4.5), and where the branch goes on.
#[derive(Clone, Copy, PartialEq, Eq)]
pub struct Label {
    pub index: u32,
    pub destination: BranchTarget,
}

impl Label {
    ghost use Rattle.std.specs.Prelude.{◌≡◌};

    /// A label whose body is not checked yet.
    #[inline(always)]
    pub fn unresolved(index: u32) -> Self
        ensures { result.index ≡ index }
    {
        Label {
            index,
            destination: BranchTarget::Short {
                arity: 0,
                height: 0,
                target: 0,
            },
        }
    }
}

/// One flat instruction (2.4): an instruction without a body, with its immediates, or one of the words that open,
/// part and close the others. Where branches, an `if` and an `else` go on is written there once the body is checked.
#[derive(Clone, Copy, PartialEq, Eq)]
pub enum Token {
    Unreachable,
    Nop,
    Block(BlockType),
    Loop(BlockType),
    /// `target` is where it goes on if its operand is zero.
    If {
        block: BlockType,
        target: u32,
    },
    /// `target` is where the first part of its `if` goes on.
    Else {
        target: u32,
    },
    End,
    Br(Label),
    BrIf(Label),
    /// `count` labels from position `first` of the list of targets on, and after them the default.
    BrTable {
        count: u32,
        first: usize,
    },
    Return,
    Call(u32),
    CallIndirect(u32),
    Drop,
    Select,
    LocalGet(u32),
    LocalSet(u32),
    LocalTee(u32),
    GlobalGet(u32),
    GlobalSet(u32),
    /// `align` is the exponent of the alignment.
    Load {
        load: Load,
        align: u32,
        offset: u32,
    },
    Store {
        store: Store,
        align: u32,
        offset: u32,
    },
    MemorySize,
    MemoryGrow,
    I32Const(i32),
    I64Const(i64),
    /// The bytes of the float, uninterpreted.
    F32Const([u8; 4]),
    F64Const([u8; 8]),
    Numeric(Operator),
}

const _: () = prove!(size_of::<Token>() == 16);
