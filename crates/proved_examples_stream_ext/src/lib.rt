//! Written by tools/documents: the functions with clauses in the examples of doc comments.
#![tactic(auto)]

pub mod adapters;
pub mod consuming;
