// The byte tables of the boxes, and the constants of the key schedule. (The word tables are a crate
// of their own.)

#![tactic(auto)]

pub mod boxes;
pub mod constants;
