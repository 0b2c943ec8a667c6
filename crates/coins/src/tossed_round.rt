// A round that a coin shows a bit for.
ghost use Rattle.coins.specs.Coins.{Tossed};

// A ballot, and one of its rounds from 1 to 15.
#[derive(Clone, Copy, PartialEq, Eq, Debug)]
pub struct TossedRound {
    pub ballot: u8,
    pub round: u8,
    pub ghost tossed: { Tossed ballot round },
}
