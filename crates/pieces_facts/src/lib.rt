// Theorems about the reader in pieces: specs/ states them, proofs/ proves them. There is no code here.
#![tactic(auto)]
