// Theorems about the definition, with no code: statements in specs/, proofs in proofs/.
#![tactic(auto)]
