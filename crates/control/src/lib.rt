// Layer four: commands, observations and the retired test, on values and on a table that is lent.

#![tactic(auto)]

pub mod apply;
pub mod begin;
pub mod control;
pub mod judge;
pub mod make;
pub mod observe;
pub mod representable;
pub mod request;
pub mod retired;
pub mod sets;
