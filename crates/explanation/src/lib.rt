//! What is said of a module as data: its verdict, and of a refusal which function, which token, which bytes, and why.
//!
//! Proved: an explanation gives the refusal that it was made for (`Explanation::judged`). Its kind, span, section, item, opcode and body
//! are those of `specs/Fields`. The type and the first exported name of a function are the module's.
#![tactic(auto)]

mod broken_item;
mod cause;
mod explanation;
mod fields;
mod functions;
mod shell_location;
mod typing;

pub use broken_item::{BrokenItem, Initial, ItemFault};
pub use cause::{Cause, Space};
pub use explanation::{
    BodyExplanation, Explanation, Form, FoundToken, FunctionSignature, IllTypedToken, NoModule,
    Places, RefusedFunction, Sign, Span, StopLocation, Stopped,
};
pub use fields::ExplanationKind;
pub use functions::{first_export, signature_of};
pub use shell_location::{
    FoundSection, InitialValue, Location, OtherSegment, SectionPart, Wanted, Wrong,
};
pub use typing::{BlockKind, Giver, OpenBlock, OpenBlocks, Opening, PassedToken, Typing};
