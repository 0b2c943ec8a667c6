// A slot of the sheet broadcast: where its sheets stand, the steps that it takes, and what is delivered.
#![tactic(auto)]

pub mod delivered;
pub mod places;
pub mod slot;
pub mod steps;
