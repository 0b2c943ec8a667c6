// Taking the steps of slots over the lent tables: their sheets, proposing, their ballots.
#![tactic(auto)]

pub mod clearing;
pub mod proposing;
pub mod slot_steps;
pub mod turns;
