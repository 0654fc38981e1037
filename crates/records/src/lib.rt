// Layer two: the records, the representability check, validity and the successor check.

#![tactic(auto)]

pub mod blank;
pub mod blanks;
pub mod evidence;
pub mod number;
pub mod records;
pub mod representable;
pub mod successor;
pub mod validation;
