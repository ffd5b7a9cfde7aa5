//! A refusal that its reader can act on: which function, which token, which bytes, and what is known of why.
//!
//! Proved: `explain` tells the verdict of the definition, and all that it tells beside it is so of the module that the bytes spell
//! (`specs/Placed`), but for hints: names, signs, and where an initial value begins. `explain_calls` refuses exactly what cannot be
//! judged or read, and its text begins with the verdict line.
#![tactic(auto)]

mod explaining;
mod explaining_calls;
mod faults;
mod forms;
mod headers;

pub use batch_text::{LineFault, WordFault, line_fault};
pub use explain_run::{FloatLocation, NotStarting, not_starting, text_of_exports};
pub use explain_text::explanation_text;
pub use explaining::explain;
pub use explaining_calls::{CallsExplanation, Refused, explain_calls};
pub use explanation::{
    BlockKind, BodyExplanation, BrokenItem, Cause, Explanation, ExplanationKind, Form,
    FoundSection, FoundToken, FunctionSignature, Giver, IllTypedToken, Initial, ItemFault,
    Location, NoModule, OpenBlock, OpenBlocks, Opening, OtherSegment, Places, RefusedFunction,
    SectionPart, Sign, Space, Span, StopLocation, Stopped, Typing, Wanted, Wrong,
};
