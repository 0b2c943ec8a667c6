// The edges of the specification, in a hall of four; `together` has them all in one contract.
#![tactic(auto)]

pub mod ballot_edges;
pub mod coin_edges;
pub mod messages_edges;
pub mod open_edges;
pub mod sheets_edges;
pub mod together;
