//! Tests of `batch` and `program`: whole answers, streams, and the program over a source and writers in memory. They stand here,
//! since a crate with tests is proved twice.
#![tactic(auto)]

#[cfg(test)]
mod answers;
#[cfg(test)]
mod files;
#[cfg(test)]
mod streams;
