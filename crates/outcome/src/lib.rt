// What a pass of a byte string answers and leaves in the lent buffers: see specs/. There is no code here.
#![tactic(auto)]
