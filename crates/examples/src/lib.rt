// Small sheets, one for each strategy, from their bytes to what a pass of them leaves: see specs/. There is no code here.
#![tactic(auto)]
