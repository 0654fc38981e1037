// Layer one: text and identifiers. No other crate of the repository lies below it.

#![tactic(auto)]

pub mod answer;
pub mod identity;
pub mod text;
pub mod utf8;
