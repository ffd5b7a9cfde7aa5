//! Tests of what no clause of the crates below `batch` says: which memory a pool lends, that work is really shared, how often a
//! job is run, and that the tree of ends says all that comparing says. They stand here, since a crate with tests is proved twice.
#![tactic(auto)]

#[cfg(test)]
mod pools;
#[cfg(test)]
mod prefixes;
#[cfg(test)]
mod workers;
