// Ballots: each settles by rounds whether one slot's sheet goes in.
#![tactic(auto)]

pub mod ballot;
pub mod going;
pub mod later_round;
pub mod reacting;
pub mod rounds;
pub mod shares;
pub mod stage;
