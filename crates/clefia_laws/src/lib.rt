// Laws of CLEFIA's definitions, in specs/. There is no code here.

#![tactic(auto)]
