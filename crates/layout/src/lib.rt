// Layer three, its ground: the parts that the bytes of a table have, and the writer of bytes. The
// format itself stands in specs/Layout.antt.

#![tactic(auto)]

pub mod parts;
pub mod put;
