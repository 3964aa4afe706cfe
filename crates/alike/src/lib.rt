// Two sheets that a pass can hardly tell apart: specs/. No code.
#![tactic(auto)]
