// Table values in the raw form of oracle/FORMAT.md, for the programs that test and time the port.

#![tactic(auto)]

pub mod crc;
pub mod fields;
pub mod form;
pub mod place;
pub mod room;
pub mod table;
