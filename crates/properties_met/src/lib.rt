//! For each type with a property, two values that the property relates, and a calm one: no property holds of nothing.
//!
//! What a pending has registered, and whether a poll asks for memory, follow from the parts of a type: one of which nothing
//! is registered, or of which no run is ample, fails here. If no poll asks for memory, each run is ample: the trait has that law.
#![tactic(auto)]

pub mod conditions;
pub mod consuming;
pub mod firm;
pub mod future_properties;
pub mod holding;
pub mod merges;
pub mod readers;
pub mod reading;
pub mod sources;
pub mod streams;
pub mod writers;
