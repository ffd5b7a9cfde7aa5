//! Runs a job at each of n indices on many threads, and has the answer of one thread. Indices are cut into
//! pieces, workers take pieces from one deque and pass over what lies above the least refusal, and their
//! answers are gathered in order. It knows nothing of what the job is.
//!
//! Proved: no piece is handed out twice, and all of them are where one share met the end. The mark is one register that
//! never rises. `gather` names no index twice, and passes none over without a smaller refusal. `try_all` gives what a
//! loop on one thread may give, for every number of workers and every cutting. How often a job runs an index is tested.
#![tactic(auto)]

mod bag;
mod beside;
mod crew;
mod gathering;
mod history;
mod job;
mod mark;
mod member;
mod opening;
mod piece;
mod plan;
mod settling;
mod share;
mod task;
mod trying;
mod tuning;
mod views;
mod watch;
mod work;

pub use bag::Bag;
pub use gathering::gather;
pub use history::MarkCall;
pub use job::{Job, JobFault};
pub use mark::Mark;
pub use opening::open;
pub use piece::Piece;
pub use plan::Plan;
pub use settling::{Settled, settle};
pub use share::Share;
pub use trying::{TryFault, try_all};
pub use watch::{Quiet, Stage, Watch};
