//! Explanations as JSON: data in, one object out.
//!
//! Proved: the object is JSON (RFC 8259, as the kit's library `json` defines it), and its first member is the verdict line. The type
//! `Fact` can hold nothing that is no JSON. Which members an explanation has is tested alone.
#![tactic(auto)]

mod body_facts;
mod facts;
mod kinds;
mod object;
mod texts;
mod typing_facts;
mod values;
mod writing;

pub use object::explanation_object;
