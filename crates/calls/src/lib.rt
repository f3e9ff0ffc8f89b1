// What every call answers, a solver's reply, and the three demands: definitions (specs/) and theorems (proofs/) alone, no code.

#![tactic(auto)]
