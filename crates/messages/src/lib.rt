// Messages between replicas: their kinds, reading them from packets, writing them, and their positions.
#![tactic(auto)]

pub mod bits;
pub mod message;
pub mod position;
pub mod read;
pub mod tags;
pub mod write;
