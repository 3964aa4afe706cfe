// Theorems about closed landings; no code.
#![tactic(auto)]
