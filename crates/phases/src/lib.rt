// The two supplied round rules: two phases and three phases of votes.
#![tactic(auto)]

pub mod counting;
#[cfg(test)]
mod endings;
pub mod hearing;
pub mod phased;
pub mod recording;
pub mod round;
pub mod steps;
pub mod tagged;
pub mod through;
pub mod vote_phase;
pub mod votes;
