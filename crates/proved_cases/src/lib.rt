// The table of proved cases, and a table and an attestation read field by field from the original's
// bytes: all of it stands in specs/.
#![tactic(auto)]
