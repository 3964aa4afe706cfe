// Searches of the equality graph: see specs/. There is no code here.
#![tactic(auto)]
