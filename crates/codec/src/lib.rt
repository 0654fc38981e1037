// Layer three, its entry points: the bytes of a table and of an attestation.

#![tactic(auto)]

pub mod codec;
