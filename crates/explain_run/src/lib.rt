//! What is said of an accepted module and its calls: its exports, why no instance starts, and calls that cannot be read or do not fit.
//!
//! Proved: each import and each export has its line (`specs/Exports`). The reason of a refused start is that of the definition, and its
//! text begins with the report's words (`specs/Starting`).
#![tactic(auto)]

mod calls_misfit;
mod calls_text;
mod customs;
mod exports_text;
mod meant;
mod starting;
mod starting_text;

pub use calls_misfit::{CallMisfit, Misfit, first_misfit};
pub use calls_text::{push_calls_fault, push_misfit};
pub use customs::CustomSection;
pub use exports_text::text_of_exports;
pub use starting::{FloatLocation, NotStarting, not_starting};
pub use starting_text::push_not_starting;
