// A round rule unlike the two supplied ones: what every rule keeps fits more than those two.
#![tactic(auto)]

pub mod one_shot;
#[cfg(test)]
mod rounds;
