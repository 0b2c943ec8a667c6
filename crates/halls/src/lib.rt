// A hall of tills at play: its tills offer, hear each other and close, and what a script's lines print.
#![tactic(auto)]

pub mod acts;
pub mod calls;
pub mod hall;
pub mod opening;
pub mod packet;
pub mod player;
pub mod report;
pub mod rest;
pub mod ruled;
pub mod script;
pub mod state;
pub mod till;
