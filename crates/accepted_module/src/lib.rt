//! An accepted module: its parts, and what is computed once about it. Whoever holds one knows that it was judged. With
//! it stands what its instances start from (Core 1.0, 4.5.4): the first values of its globals, the offsets of its
//! segments, and the first segments that lie outside.
//!
//! Proved: no rule is broken, the context is the module's, and each function has its checked body (`accepted_holds`). The
//! start function takes nothing and gives nothing (`start_is_plain`). `export` gives kind and index of the export of a
//! name; `body`, `type_id`, `function_type_id`, `has_floats`, `declared_locals` and `frame_layouts` say what their
//! names say, exactly. The layout is the definition's.
#![tactic(auto)]

mod accepted;
mod constant;
mod exports;
mod floats;
mod globals;
mod initial_state;
mod making;
mod offsets;
mod refusal;
mod segments;
mod shapes;
mod sizes;
mod type_ids;

pub use accepted::Accepted;
pub use exports::positions_by_name;
pub use initial_state::InitialState;
pub use sizes::{memory_pages, table_size};
