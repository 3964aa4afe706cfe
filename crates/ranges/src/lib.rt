// Laws about `any` and `all` over a range: see specs/. There is no code here.
#![tactic(auto)]
