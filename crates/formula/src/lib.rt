// The question of a sheet as clauses: definitions (specs/) and theorems (proofs/) alone, no code.

#![tactic(auto)]
