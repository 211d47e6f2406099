// What the program test_edges is written with (`page` takes the reading of its book and one cut
// from here): its script, the commands, and what calls are given.
#![tactic(auto)]

pub mod bench;
pub mod commands;
pub mod cut;
pub mod input;
pub mod script;
