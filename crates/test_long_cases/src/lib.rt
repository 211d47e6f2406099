// Computed facts of the specification that take seconds; by themselves, so that no wrong definition
// waits for them. The facts are in specs/.

#![tactic(auto)]
