// The dealt coin: one number for each ballot, and no shares.
ghost use Rattle.std.specs.Prelude.{◌≡◌, replicate};
ghost use Rattle.coins.specs.Coins.{NewCoin};
ghost use Rattle.coins.specs.Dealt.{dealt_acts, dealt_bit_lem, dealt_keeps};

use crate::coin::Coin;
use crate::share::Share;
use crate::tossed_round::TossedRound;
use basis::heard::Heard;
use basis::refusal::Reason;
use basis::replicas::contains;

// Bit r of a ballot's number, counted from the lowest, is what the coin shows for round r.
#[derive(Clone, Copy)]
pub struct DealtCoin {
    pub numbers: [u16; 16],
}

impl DealtCoin {
    // The coin of one number for each ballot. A constructor beside `same`: `From` names neither.
    pub fn new(numbers: [u16; 16]) -> DealtCoin
        ensures value { result.numbers ≡ numbers }
        ensures fresh { NewCoin dealt_acts result }
    {
        DealtCoin { numbers }
    }

    // The coin of one number for all ballots.
    pub fn same(number: u16) -> DealtCoin
        ensures value { result.numbers ≡ replicate 16 number }
        ensures fresh { NewCoin dealt_acts result }
    {
        DealtCoin::new([number; 16])
    }

    // The bit of a ballot and a round.
    pub fn dealt_bit(&self, at: TossedRound) -> bool
        ensures { result ≡ dealt_bit_lem self.now at.ballot at.round }
    {
        contains(self.numbers[usize::from(at.ballot)], at.round)
    }
}

impl Coin for DealtCoin {
    ghost acts = { dealt_acts };

    ghost keeps = { dealt_keeps };

    fn uses_shares() -> bool {
        false
    }

    fn bit(&self, at: TossedRound) -> Option<bool> {
        Some(self.dealt_bit(at))
    }

    fn own_share(&self, _at: TossedRound) -> Option<u8> {
        None
    }

    fn share_of(&self, _at: TossedRound, _sender: u8) -> Option<u8> {
        None
    }

    // The coin uses no shares, so nothing is kept of one.
    fn take(&mut self, _share: Share) -> Result<Heard, Reason> {
        Ok(Heard::New)
    }
}
