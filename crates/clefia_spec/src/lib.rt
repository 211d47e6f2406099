// The specification of CLEFIA: definitions and computed cases, in specs/. There is no code here.

#![tactic(auto)]
