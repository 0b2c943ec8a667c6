// Coins: what every coin does and keeps, the dealt coin and the share coin.
#![tactic(auto)]

pub mod coin;
pub mod dealt;
pub mod share;
pub mod share_coin;
pub mod toss;
pub mod tossed_round;
