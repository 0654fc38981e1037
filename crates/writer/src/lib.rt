// Layer three, the writers of the records, and how many bytes each takes.

#![tactic(auto)]

pub mod encode;
pub mod writer;
