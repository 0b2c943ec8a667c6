// The record's call at each kind of sheet, rule and coin, with what holds of every evening at these types.
#![tactic(auto)]

pub mod labels;
pub mod tables;
pub mod takings;
