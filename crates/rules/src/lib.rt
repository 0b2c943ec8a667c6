// Round rules: what a rule of the later rounds means, what it can be asked, and what every rule keeps.
#![tactic(auto)]

pub mod cast_vote;
pub mod rule;
