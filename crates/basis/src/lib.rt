// What every layer rests on: refusals, hall sizes, a replica's place in its hall, sets of replicas and their counts,
// numbers as bytes.
#![tactic(auto)]

pub mod hall;
pub mod heard;
pub mod member;
pub mod refusal;
pub mod replicas;
