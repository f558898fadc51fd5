// What the archive of the number rules exports to C: each function is that of `gwizdorad_numbers`, with its clauses.
#![tactic(auto)]

mod solver;
