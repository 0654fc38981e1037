// Layer three: the readers.

#![tactic(auto)]

pub mod decode;
pub mod reader;
