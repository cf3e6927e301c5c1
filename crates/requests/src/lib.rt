// What the requests of cases_run share: their words and numbers, and how the answers are printed.
#![tactic(auto)]

pub mod loading;
pub mod printing;
pub mod states;
