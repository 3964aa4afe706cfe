// Theorems about the store of weights; no code.
#![tactic(auto)]
