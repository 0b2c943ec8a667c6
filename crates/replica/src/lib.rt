// A replica: its states, and the calls that users make.
#![tactic(auto)]

pub mod closed;
pub mod fresh;
pub mod offered;
pub mod running;
pub mod states;
