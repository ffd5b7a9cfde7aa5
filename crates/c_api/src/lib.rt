//! The library for C: each export calls a function of the crates below and hands its answer out in plain fields. It starts no
//! thread and waits for none. Its names and structs are those of gate.h.
//!
//! Proved: each export writes the fields or the text of the definition with its status. With 4, 64, 70, 80 or 82 it writes nothing;
//! 75 writes the length that is wanted, and 81 how the start function of a new instance ended. A handle that is not freed stays alive,
//! and what it holds changes only by the calls that are for that: calls, writes and resets of an instance. What C owes, `gate.h` says,
//! and nothing checks.
#![tactic(auto)]

mod beginning;
mod build;
mod calling;
mod calling_on;
mod counted;
mod ending;
mod explained;
mod explaining;
mod exported;
mod exports;
mod handing;
mod held;
mod import_exports;
mod imported;
mod instance;
mod instance_exports;
mod judged;
mod kept;
mod listing;
mod live;
mod loose;
mod measures;
mod module;
mod operating;
mod queries;
mod report;
mod sending;
mod settings;
mod size;
mod starting;
mod status;
mod text;
mod value;

pub use counted::ModuleCount;
pub use ending::GateCall;
pub use explained::GateExplanation;
pub use exported::GateExport;
pub use held::Held;
pub use imported::GateImport;
pub use instance::{GateInstance, InstanceSlot, InstanceStatus};
pub use judged::GateVerdict;
pub use kept::Kept;
pub use live::Live;
pub use measures::GateMeasures;
pub use module::{GateModule, ModuleSlot, ModuleStatus};
pub use report::{GateReport, ReportSlot, ReportStatus};
pub use settings::GateSettings;
pub use value::GateValue;
