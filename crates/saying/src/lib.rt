// Saying: the first message that a replica has said at or after a position.
#![tactic(auto)]

pub mod below;
pub mod say;
pub mod shares;
pub mod view;
pub mod votes;
