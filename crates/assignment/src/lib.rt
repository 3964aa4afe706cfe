// One group pass: assignment.rs.
#![tactic(auto)]
