//! Reading what a module says outside its bodies, to find where it is malformed: no value is kept.

pub(crate) mod contents;
pub(crate) mod expressions;
pub(crate) mod items;
pub(crate) mod locations;
pub(crate) mod primitives;
pub(crate) mod type_items;
