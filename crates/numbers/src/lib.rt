// Answers and machines as numbers in lent memory, for the functions that C calls.
#![tactic(auto)]

pub mod fours;
pub mod notes;
pub mod states;
