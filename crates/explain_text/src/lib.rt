//! Explanations as text: data in, lines out.
//!
//! Proved: the text of a module that is refused begins with its verdict line. Names are quoted and types are written as `specs/Texts` and
//! `specs/Types` say. Other sentences are tested alone.
#![tactic(auto)]

mod cause_text;
mod instruction_lines;
mod later;
mod lines;
mod no_module_text;
mod opcode_names;
mod quoting;
mod refused_token;
mod rule_text;
mod sentence;
mod shell_text;
mod shell_words;
mod stop_text;
mod text;
mod token_text;
mod type_text;
mod typing_text;

pub use cause_text::push_cause;
pub use later::later_words;
pub use opcode_names::name_of_byte;
pub use quoting::push_name;
pub use refused_token::RefusedToken;
pub use text::{explanation_text, first_line};
pub use token_text::{push_instruction, push_token};
pub use type_text::{push_lists, push_types, type_name};
pub use typing_text::{SHOWN, block_name};
