// What follows from what the calls answer: the three demands, and the laws that they rest on, in
// specs/. There is no code here.

#![tactic(auto)]
