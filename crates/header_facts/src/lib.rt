// Theorems about the header's definitions: specs/ states them, proofs/ proves them. There is no code here.
#![tactic(auto)]
