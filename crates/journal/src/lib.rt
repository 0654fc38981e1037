// The replay as a library: records from lent bytes, played on a table, and the line of each.

#![tactic(auto)]

pub mod bodies;
pub mod line;
pub mod observation;
pub mod play;
pub mod record;
pub mod replay;
pub mod step;
