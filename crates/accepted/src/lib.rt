// What an accepted sheet says: see specs/. There is no code here.
#![tactic(auto)]
