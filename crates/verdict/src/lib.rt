//! Judging a module: the grammar, the module rules and every body, on many workers or on the calling thread alone.
//!
//! Proved: `examine` gives the verdict of the definition for every plan, and keeps nothing; `judge` gives the same, and of an
//! accepted module its parts. The `_alone` forms promise the same on the calling thread. Bytes have one verdict at most
//! (`one_verdict`).
#![tactic(auto)]

mod body;
mod examining;
mod front_token;
mod grouping;
mod head;
mod jobs;
mod judging;
mod keeping;
mod keeping_jobs;
mod keeping_pass;
mod laws;
mod passing;
mod rest;
mod tuning;

pub use accepted_module::Accepted;
pub use examining::{examine, examine_alone};
pub use judging::{judge, judge_alone};
pub use laws::{one_verdict, segments_hold_bytes};
pub use refusal::{BodyRefusal, Refusal};
