// Hearing a packet: its checks, recording its message, and the steps of its slot.
#![tactic(auto)]

pub mod message;
pub mod noting;
pub mod packet;
