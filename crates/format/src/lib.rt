// The algebra of byte formats: all of it stands in specs/.
#![tactic(auto)]
