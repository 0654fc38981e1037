// Both ends of the size of a table, by a table each: all of it stands in specs/.
#![tactic(auto)]
