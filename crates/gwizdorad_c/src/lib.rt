// What the archive of everything exports to C beside the number rules: each function is that of `gwizdorad`, with its clauses.
#![tactic(auto)]

mod streams;
mod summaries;
