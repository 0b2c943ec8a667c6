// A later round of a slot's ballot.
ghost use Rattle.std.specs.Prelude.{◌≡◌, ℕ, suc, ◌<◌};

use coins::tossed_round::TossedRound;

// Its slot and its number; round 1 is the first of them, number 0 here.
#[derive(Clone, Copy, PartialEq, Eq, Debug)]
pub struct LaterRound {
    pub slot: u8,
    pub later: u8,
    ghost of_a_slot: { slot < 16 },
    ghost of_a_ballot: { later < 15 },
}

impl LaterRound {
    // The same with the opening round counted.
    pub fn round(self) -> u8
        ensures { result ≡ suc self.later }
    {
        self.later + 1
    }

    // The round for which a coin shows its bit.
    pub fn tossed_round(self) -> TossedRound
        ensures ballot { result.ballot ≡ self.slot }
        ensures round { result.round ≡ suc self.later }
    {
        TossedRound {
            ballot: self.slot,
            round: self.round(),
        }
    }
}
