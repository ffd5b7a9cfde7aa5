//! What holds of the definitions of `wsyntax`: the algorithm of validation decides the typing rules, and typed code is
//! never stuck. Each function does nothing; its `ensures` is a law about definitions in `specs/`.
//!
//! Proved, over the definitions alone: the algorithm accepts exactly the typed bodies, and refuses at the first fault.
//! Typing by recursion is the standard's rules of inference. A configuration makes one step at most; preservation and
//! progress hold; no typed call gets stuck. A call has one end, in values of its result types and with a typed store. A
//! judged module without imports and floats has one run-time module, and a text of calls has one answer.
#![tactic(auto)]

pub mod examples;
pub mod execution;
pub mod instances;
pub mod texts;
pub mod validation;
