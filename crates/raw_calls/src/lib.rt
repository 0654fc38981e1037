// Commands and observations in the form in which questions carry them, for the programs that test
// and time the port.

#![tactic(auto)]

pub mod record;
