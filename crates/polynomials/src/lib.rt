// Polynomials modulo 251, and the bit that the shares of a hall show.
#![tactic(auto)]

pub mod newton;
pub mod search;
