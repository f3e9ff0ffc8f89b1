// The hours of a book's templates: definitions (specs/) and theorems (proofs/) alone, no code.

#![tactic(auto)]
