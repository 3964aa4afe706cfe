// Theorems of request F-12, shuttles that also run sideways: specs/. No code.
#![tactic(auto)]
