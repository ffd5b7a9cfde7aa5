//! The text of calls that is read, and the report that is written of how they ended.
//!
//! Proved: `read_calls` gives the calls that a text says, or that it is too long, or its least bad line. `cut_lines` cuts
//! a text after newlines, and the calls of the slices are those of the text. `report` writes exactly the report of its
//! lines, and so do the texts of its parts with `last_line` after them.
#![tactic(auto)]

mod args;
mod call;
mod calls;
mod fault;
mod line;
mod line_faults;
mod number;
mod part;
mod reports;
mod slices;
mod split;
mod total;
mod tuning;
mod value;
mod words;

pub use args::Args;
pub use call::Call;
pub use calls::read_calls;
pub use fault::CallsFault;
pub use line::Line;
pub use line_faults::{LineFault, WordFault, line_fault};
pub use part::Part;
pub use reports::{last_line, report};
pub use slices::{count_calls, cut_lines};
pub use split::split_before;
pub use total::Total;
pub use wsyntax::{Outcome, StartRefusal};
