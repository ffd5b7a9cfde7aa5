//! Modules of WebAssembly (Core 1.0, chapter 5) from their bytes, and the bodies of their functions from theirs.
//! Of Core 2.0 are the block types that are the index of a type, and the sign extensions of the lowest bits.
//!
//! Proved: `decode_module` gives the module of the binary grammar, and each refusal, exactly; `decode_body` does so for
//! bodies, with the limit on locals, and its targets are the labels of the branch tables. `decode_front` leaves the data
//! segments as bytes: `ModuleHead::whole` reads them, and `ModuleHead::segments_pass` asks a rule of each. Bytes spell one module
//! and one body at most.
#![tactic(auto)]

mod body;
mod elements;
mod fault;
mod frequent;
mod front;
mod initial;
mod instructions;
mod laws;
mod module;
pub mod op;
mod rule;
mod section;
mod sections;
mod tuning;
mod types;
mod values;

pub use body::{decode_body, has_too_many_locals, locals_at, locals_into};
pub use fault::{BodyFault, DecodeFault, Fault};
pub use frequent::{
    block_start, br, br_if, call_at, i32_const, i64_const, load_at, numeric_at, store_at,
    variable_at,
};
pub use front::ModuleHead;
pub use instructions::{enter, expression_at, token_at};
pub use laws::{
    bodies_are_determined, grammar_is_read, modules_are_determined, shells_are_determined,
    tokens_have_one_tree,
};
pub use module::{decode_front, decode_module};
pub use rule::SegmentRule;
pub use tuning::FEW_BLOCKS;
