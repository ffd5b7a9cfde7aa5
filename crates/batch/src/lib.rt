//! What is written for a module and a text of calls.
//!
//! Proved: `answer` writes exactly the answer of the definition (`answer`, `status`, `never_stuck`, `typed`), and there is
//! one (`one_answer`). `answer_alone`, `answer_on_alone`, `run_batch` and `call_alone` promise their part of it. `stream` writes
//! the report of a text of any length while it reads it.
#![tactic(auto)]

mod answering;
mod each;
mod front;
mod group;
mod groups;
mod laws;
mod line;
mod output;
mod reader;
mod reading;
mod report;
mod rounds;
mod runner;
mod running;
mod sequential;
mod sliced;
mod slices;
mod status;
mod stream_fault;
mod streaming;
mod tuning;

pub use answering::answer;
pub use batch_text::{Call, CallsFault, Line, read_calls};
pub use laws::{answers_are_safe, one_answer};
pub use line::verdict_line;
pub use memory::CleanMem;
pub use output::{WriteFailed, write_text};
pub use pieces::{Plan, Quiet, Watch};
pub use report::{report_verdict, write_verdict};
pub use runner::call_alone;
pub use running::run_batch;
pub use sequential::{Answer, answer_alone, answer_on_alone};
pub use status::{AnswerFault, Status};
pub use stream_fault::StreamFault;
pub use streaming::stream;
pub use wstore::Settings;
