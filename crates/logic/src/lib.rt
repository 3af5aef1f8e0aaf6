// Definitions and theorems alone: see specs/ and proofs/.
#![tactic(auto)]
