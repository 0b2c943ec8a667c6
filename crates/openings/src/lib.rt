// The opening round of a ballot, round 0: the same under every rule.
#![tactic(auto)]

pub mod admitting;
pub mod proposing;
pub mod steps;
