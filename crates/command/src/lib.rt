//! The words of the command line, and what they ask for. It reads no file and knows no status.
//!
//! Proved: the first word is the name of the request's command. Its paths stand among the words after that, the module's before
//! that of the calls, and its numbers are what the words say, or the defaults. The names of a check of many files are all that
//! the words have, in their order. A text is given only where the words ask for help or for the version. That right words get a
//! request is tested.
#![tactic(auto)]

mod commands;
mod fault;
mod matched;
mod names;
mod option_values;
mod reading;
mod request;
mod words;

pub use commands::help_names_limits;
pub use fault::{WordsFault, usage};
pub use reading::read_words;
pub use request::Request;
