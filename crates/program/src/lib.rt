//! The program: judges a module or many, or runs calls of what it exports, also while they are read. It reads files from a source
//! of bytes under paths, and of each no more than it asks for. The crate `gate` is its `main`.
//!
//! Proved: `run` obeys a request that the words make, reads the module before the calls, and ends with one of
//! the named statuses: 2, 3 and 0 only after what they stand for was written. Of many files each line is that of its file, and the
//! lines stand in the order of the names. Calls of a stream are asked for only where the module is accepted. Nothing is written
//! with 64, nor with 70 by `check`, `run`, `explain` or `exports`. With 70 `check-all` writes at most whole lines of the first
//! files, and `stream` those of the first calls.
//! `read_up_to` gives what a reader has left, or the first bytes of it, and never more than was asked for. `judge_all` gives many
//! modules the verdicts that they have alone, in their order, for every plan.
#![tactic(auto)]

mod answer;
mod arguments;
mod check;
mod checking_all;
mod disk;
mod explaining;
mod fault;
mod file_lines;
mod file_outcome;
mod finishing;
mod judging_all;
mod listing;
mod name_list;
mod obeying;
mod progress;
mod reading;
mod small;
mod source;
mod spreading;
mod streaming;
mod taking;
mod tuning;
mod walking;

pub use arguments::run_process;
pub use judging_all::judge_all;
pub use obeying::run;
pub use source::{ReadFault, Reason, Source};
