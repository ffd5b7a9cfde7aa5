//! Modules and their parts (2.5).
ghost use Rattle.std.specs.Prelude.{IsTrue, [], length};
ghost use Rattle.std.specs.List.{list_all};
ghost use Rattle.wsyntax.specs.Brackets.{closes, lies_within};

use crate::elements::Elements;
use crate::func_types::FuncTypes;
use crate::instructions::Token;
use crate::other_expression::OtherExpression;
use crate::types::{GlobalType, Limits, ValType};
use std::alloc::Global as Alloc;
use std::mem::size_of;

/// An expression (2.4.6), flat: its tokens, the last `end` included, and the targets of its branch tables.
#[derive(Drop)]
pub struct Expression {
    pub tokens: Vec<Token>,
    pub targets: Vec<u32>,
    pub ghost closed: { IsTrue (closes [] tokens.items) },
    pub ghost within: { IsTrue (list_all (lies_within (length targets.items)) tokens.items) },
}

/// The expression of a first value (2.5.6) or of an offset (2.5.7, 2.5.8).
#[derive(Clone, Copy)]
pub enum ConstExpr<'a> {
    I32Const(i32),
    I64Const(i64),
    /// The bytes of the float, uninterpreted.
    F32Const([u8; 4]),
    F64Const([u8; 8]),
    GlobalGet(u32),
    Other(OtherExpression<'a>),
}

const _: () = prove!(size_of::<ConstExpr<'static>>() == 24);

impl<'a> ConstExpr<'a> {
    ghost use Rattle.std.specs.Prelude.{◌≡◌};
    ghost use Rattle.wsyntax.specs.Modules.{constant_instruction};

    /// The instruction of an expression of one constant, or of one `global.get`.
    pub fn constant_instruction(&self) -> Option<Token>
        ensures { result ≡ constant_instruction self.now }
    {
        match self {
            ConstExpr::I32Const(number) => Some(Token::I32Const(*number)),
            ConstExpr::I64Const(number) => Some(Token::I64Const(*number)),
            ConstExpr::F32Const(bytes) => Some(Token::F32Const(*bytes)),
            ConstExpr::F64Const(bytes) => Some(Token::F64Const(*bytes)),
            ConstExpr::GlobalGet(global) => Some(Token::GlobalGet(*global)),
            ConstExpr::Other(_) => None,
        }
    }
}

/// A table (2.5.4), whose entries are function references.
#[derive(Clone, Copy, PartialEq, Eq)]
pub struct Table {
    pub limits: Limits,
}

/// A global (2.5.6) and the expression of its first value.
#[derive(Clone, Copy)]
pub struct Global<'a> {
    pub global_type: GlobalType,
    pub init: ConstExpr<'a>,
}

/// A data segment (2.5.8): the index of its memory, the expression of its offset, and its bytes, which lie in the input.
#[derive(Clone, Copy)]
pub struct Data<'a> {
    pub memory: u32,
    pub offset: ConstExpr<'a>,
    pub bytes: &'a [u8],
}

/// What an export names (2.5.10).
#[derive(Clone, Copy, PartialEq, Eq)]
pub enum ExportKind {
    Function,
    Table,
    Memory,
    Global,
}

/// An export (2.5.10): the index in the space of its kind.
#[derive(Clone, Copy)]
pub struct Export<'a> {
    pub name: &'a [u8],
    pub kind: ExportKind,
    pub index: u32,
}

/// What an import asks for (2.5.11): of a function, the index of its type.
#[derive(Clone, Copy, PartialEq, Eq)]
pub enum ImportKind {
    Function(u32),
    Table(Table),
    Memory(Limits),
    Global(GlobalType),
}

/// An import (2.5.11).
#[derive(Clone, Copy)]
pub struct Import<'a> {
    pub module: &'a [u8],
    pub name: &'a [u8],
    pub kind: ImportKind,
}

/// A number of declared locals of one type (5.5.13).
#[derive(Clone, Copy, PartialEq, Eq)]
pub struct LocalRun {
    pub count: u32,
    pub val_type: ValType,
}

/// The declared locals and the expression of a defined function (2.5.3).
#[derive(Drop)]
pub struct Body {
    pub runs: Vec<LocalRun>,
    pub code: Expression,
}

/// A module (2.5), but for the insides of the bodies, which stay slices of the input. Indices of functions, tables,
/// memories and globals count the imported ones first.
#[derive(Drop)]
pub struct Module<'a> {
    pub types: FuncTypes,
    pub imports: Vec<Import<'a>>,
    /// Of each defined function the index of its type.
    pub functions: Vec<u32>,
    pub tables: Vec<Table>,
    pub memories: Vec<Limits>,
    pub globals: Vec<Global<'a>>,
    pub exports: Vec<Export<'a>>,
    pub start: Option<u32>,
    pub elements: Elements<'a>,
    pub bodies: Vec<&'a [u8]>,
    pub data: Vec<Data<'a>>,
}

impl<'a> Module<'a> {
    ghost use Rattle.std.specs.Prelude.{◌≡◌};
    ghost use Rattle.wsyntax.specs.Modules.{module_shape};
    ghost use Rattle.wsyntax.specs.Binary.Shell.{empty_module};

    /// A module of no sections, to put some into.
    pub fn empty(alloc: Alloc) -> Module<'a>
        ensures { module_shape result ≡ empty_module }
    {
        Module {
            types: FuncTypes::new(alloc),
            imports: Vec::new(alloc),
            functions: Vec::new(alloc),
            tables: Vec::new(alloc),
            memories: Vec::new(alloc),
            globals: Vec::new(alloc),
            exports: Vec::new(alloc),
            start: None,
            elements: Elements::new(alloc),
            bodies: Vec::new(alloc),
            data: Vec::new(alloc),
        }
    }
}
