// A book of templates: definitions (specs/) and theorems (proofs/) alone, no code.

#![tactic(auto)]
