// A coin whose bit is dealt by the leader, replica 0: it shows the low bit of the leader's share, once that is taken.
ghost use Rattle.std.specs.Prelude.{◌≡◌, ◌%◌, ◌<◌};
ghost use Rattle.coins.specs.Coins.{Sender, NewCoin};
ghost use Rattle.coin_tests.specs.Leading.{place, odd, leader_acts};
ghost use Rattle.coin_tests.specs.LeadingKeeps.{leader_keeps};

use basis::heard::Heard;
use basis::refusal::Reason;
use coins::coin::Coin;
use coins::share::Share;
use coins::tossed_round::TossedRound;

// How many shares can be taken: one of each of 16 senders, for 15 rounds in each of 16 ballots.
pub const PLACES: usize = 3840;

// The own share, the same for every ballot and round, and the shares taken.
#[derive(Clone, Copy)]
pub struct LeaderCoin {
    own: u8,
    taken: [Option<u8>; PLACES],
}

// Where the share of a sender for a round stands.
fn place_of(at: TossedRound, sender: u8) -> usize
    requires { Sender sender }
    ensures value { result ≡ place at.ballot at.round sender }
    ensures within { result < 3840 }
{
    (usize::from(at.ballot) * 15 + (usize::from(at.round) - 1)) * 16 + usize::from(sender)
}

// The bit of a share.
fn bit_of(share: u8) -> bool
    ensures { result ≡ odd share }
{
    share % 2 == 1
}

impl LeaderCoin {
    // A coin of which nothing is taken, with its own share modulo 251.
    pub fn new(own: u8) -> LeaderCoin
        ensures own { result.own ≡ own % 251 }
        ensures fresh { NewCoin leader_acts result }
    {
        LeaderCoin {
            own: own % 251,
            taken: [None; PLACES],
        }
    }
}

impl Coin for LeaderCoin {
    ghost acts = { leader_acts };

    ghost keeps = { leader_keeps };

    fn uses_shares() -> bool {
        true
    }

    fn bit(&self, at: TossedRound) -> Option<bool> {
        self.share_of(at, 0).map(bit_of)
    }

    fn own_share(&self, _at: TossedRound) -> Option<u8> {
        Some(self.own)
    }

    fn share_of(&self, at: TossedRound, sender: u8) -> Option<u8> {
        self.taken[place_of(at, sender)]
    }

    fn take(&mut self, share: Share) -> Result<Heard, Reason> {
        let at = TossedRound {
            ballot: share.ballot,
            round: share.round,
        };
        let place = place_of(at, share.sender);
        match self.taken[place] {
            None => {
                self.taken[place] = Some(share.value);
                Ok(Heard::New)
            }
            Some(known) if known == share.value => Ok(Heard::Known),
            Some(_) => Err(Reason::Contradiction),
        }
    }
}
