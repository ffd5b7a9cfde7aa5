//! Why a token is ill typed: the body is checked again up to it, and what it takes, what it finds and where they are from is told.
//!
//! Proved: the operands and blocks told are those of the algorithm of the appendix at that token (`specs/Typed`), and the cause told
//! holds there (`specs/Causes`). Who put an operand is tested alone (`trail`).
#![tactic(auto)]

mod causes;
mod operands;
mod recheck;
mod trail;

pub use recheck::{Told, find_told, first_ill_typed};
pub use trail::find_open;
