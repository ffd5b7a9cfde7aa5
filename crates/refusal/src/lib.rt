//! Why a module is refused, in the order of judging: decoding, the rules of modules, the bodies.
//!
//! Proved: which refusal each fault of a lower crate becomes. `specs/Refusals` gives the verdict of the definition that a refusal stands
//! for, and `body_line` writes the line of a refused body. The crates that judge and the crates that explain both stand on it.
#![tactic(auto)]

mod lines;
mod refusal;

pub use lines::body_line;
pub use refusal::{BodyRefusal, Refusal};
