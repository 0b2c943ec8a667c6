// Kinds of sheets: what a kind is, takings and labels, and what is written once for every kind.
#![tactic(auto)]

pub mod kinds;
pub mod label;
pub mod rows;
pub mod sheet;
pub mod takings;
