//! The first item that breaks a module rule (3.2, 3.4), and its offset.
//!
//! Proved: an item that is told breaks that rule in the module that the bytes spell (`specs/Rules`).
#![tactic(auto)]

mod imported;
mod rules;

pub use rules::broken_item;
