// A coin unlike the two supplied ones, and tests of it: what every coin keeps fits more than those two.
#![tactic(auto)]

pub mod leader_coin;
#[cfg(test)]
mod tosses;
