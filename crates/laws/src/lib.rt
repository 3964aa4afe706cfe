// Laws that every crate cites: see specs/. There is no code here.
#![tactic(auto)]
