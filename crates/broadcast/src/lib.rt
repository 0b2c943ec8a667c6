// The sheet broadcast: the states of a replica, what its calls do with sheets, and what holds in every run.
#![tactic(auto)]

pub mod calls;
pub mod open;
pub mod say;
pub mod states;
