//! The structure of WebAssembly modules (Core 1.0, chapter 2), and in `specs/` what the rest of the workspace promises:
//! the binary grammar, the typing rules, reduction, and the texts that are written. How a call ends, and why an
//! instance is not made (4.2.2, 4.5.4 and 4.5.5), stand here too: instances, the interpreter and the texts of reports
//! share these types.
//!
//! Proved: `Opcode::from_byte` is the table of opcodes for all 256 bytes. `Operator::row`, `Load::row` and `Store::row`
//! say what each operator and access takes and gives, and the code says it nowhere else. `FuncTypes` and `Elements` are
//! lists: what is pushed comes last, and what is lent is the one of that index. An `OtherExpression` is neither one
//! constant nor one `global.get`, by its type.
#![tactic(auto)]

mod access_rows;
mod bounds;
mod elements;
mod func_types;
mod instructions;
mod module;
mod opcode;
mod operator_rows;
mod other_expression;
mod outcome;
mod positions;
mod start_refusal;
mod types;
mod value;

pub use access_rows::AccessRow;
pub use bounds::{
    CALLS_LIMIT, FRAMES_LIMIT, FUEL_LIMIT, LINE_LIMIT, LOCAL_LIMIT, MODULE_LIMIT, PAGE, PAGE_RANGE,
    PAGES_LIMIT, TABLE_LIMIT, limits_are_defined,
};
pub use elements::{Element, Elements};
pub use func_types::{FuncType, FuncTypes};
pub use instructions::{BlockType, BranchTarget, Label, Load, Operator, Store, Token};
pub use module::{
    Body, ConstExpr, Data, Export, ExportKind, Expression, Global, Import, ImportKind, LocalRun,
    Module, Table,
};
pub use opcode::Opcode;
pub use operator_rows::{Arity, OperatorRow};
pub use other_expression::OtherExpression;
pub use outcome::Outcome;
pub use start_refusal::StartRefusal;
pub use types::{GlobalType, Limits, ValType};
pub use value::{Trap, Value};
