//! Written by tools/documents: the functions with clauses in the examples of doc comments.
#![tactic(auto)]

pub mod future;
pub mod io;
pub mod stream;
