// Document 01's proved cases: specs/Table.antt.
#![tactic(auto)]
