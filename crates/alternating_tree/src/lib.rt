// The alternating tree over lists: see specs/. There is no code here.
#![tactic(auto)]
