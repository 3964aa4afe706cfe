// The twin of edition 1 that a sheet of edition 2 has: see specs/. There is no code here.
#![tactic(auto)]
