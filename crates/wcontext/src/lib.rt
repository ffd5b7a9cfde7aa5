//! The rules that a module keeps (3.4), and the context under which the bodies of its functions are checked (3.1.1).
//!
//! Proved: `check_module` gives the context exactly where no rule is broken, else the least broken rule. `check_rules_before_code`
//! does so for rules 1 to 8 and `check_rules_after_code` for rules 9 to 12; `SpaceSizes::takes_segment` is rule 13. A
//! `first_` gives the first item that breaks a rule. Each look-up is the definition's. `Context::is_suffix` is right where it says yes;
//! that its no is right is tested.
#![tactic(auto)]

mod check;
mod constant;
mod context;
mod fault;
mod imports;
mod limits;
mod lists;
mod names;
mod nodes;
mod prefixes;
mod rules;
mod space_sizes;
mod spaces;
mod start;
mod suffix_tree;
mod trie;
mod tuning;
mod walk;

pub use check::{SEGMENTS_RULE, check_module, check_rules_after_code, check_rules_before_code};
pub use constant::is_offset;
pub use context::Context;
pub use fault::ModuleFault;
pub use lists::{ListPair, TypeList, TypePrefix};
pub use names::NameRoom;
pub use rules::{
    first_inconstant_global, first_invalid_element, first_invalid_segment, first_missing_export,
    first_unknown, first_unlimited_memory, first_unordered_table, first_untyped_function,
    first_untyped_import, one_memory, one_table,
};
pub use space_sizes::SpaceSizes;
pub use spaces::Spaces;
