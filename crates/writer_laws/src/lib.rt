// What a writer finishes is read as what was put: see specs/. There is no code here.
#![tactic(auto)]
