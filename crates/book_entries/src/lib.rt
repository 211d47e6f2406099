// The two rules of a sheet: what holds of its entry in the contents (check 9), and of its records
// (check 11).

#![tactic(auto)]

pub mod entry;
pub mod record;
