// Theorems about the bits that rewriting alters; no code.
#![tactic(auto)]
