//! The numbers of WebAssembly: the integers of the binary format in LEB128 (5.2.2), and the integer operators (4.3.2).
//!
//! Proved: `front_u32`, `front_s32`, `front_s33` and `front_s64` give the number that is spelled at the front, and `None`
//! exactly where no front of the bytes spells one (`numbers_are_read`). Every operator is its arithmetic on whole numbers
//! modulo 2^N, traps included, and its results are words.
#![tactic(auto)]

pub mod conversions;
mod laws;
mod leb;
mod trap;
pub mod word32;
pub mod word64;

pub use laws::{
    numbers_are_read, operators_at_their_edges, operators_stay_in_range, signed_words_are_numbers,
};
pub use leb::{front_s32, front_s33, front_s64, front_u32};
pub use trap::NumTrap;
