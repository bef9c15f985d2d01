// Theorems over the definitions of a beacon and its parts: no code.
#![tactic(auto)]
