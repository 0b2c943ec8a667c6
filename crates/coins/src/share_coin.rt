// The share coin: it shows the low bit of the value at 0 of a polynomial that enough held shares lie on.
ghost use Rattle.std.specs.Prelude.{◌≡◌, ◌<◌, IfOk};
ghost use Rattle.basis.specs.Members.{member_made};
ghost use Rattle.coins.specs.Shared.{place, toss_at, share_acts, Sound, ShowsExactly, ShownExactly, coin_told, MadeOf};
ghost use Rattle.coins.specs.Keeping.{shared_keeps};

use crate::coin::Coin;
use crate::share::Share;
use crate::toss::Toss;
use crate::tossed_round::TossedRound;
use basis::heard::Heard;
use basis::member::Member;
use basis::refusal::{Reason, Refusal};

// How many tosses there are: 15 rounds in each of 16 ballots. One row of them, as own shares are handed in.
pub const TOSSES: usize = 240;

// A replica's place in its hall, and a toss for each ballot and round.
#[derive(Clone, Copy)]
pub struct ShareCoin {
    member: Member,
    tosses: [Toss; TOSSES],
}

// Where the toss of a round stands.
fn toss_place(at: TossedRound) -> usize
    ensures value { result ≡ place at.ballot at.round }
    ensures within { result < 240 }
{
    usize::from(at.ballot) * 15 + (usize::from(at.round) - 1)
}

impl ShareCoin {
    // The coin of a replica in a hall of n, with its own shares ballot by ballot and round by round from 1 on. Refused
    // where n is not listed or the own number not below it.
    pub fn new(n: u8, own: u8, shares: &[u8; TOSSES]) -> Result<ShareCoin, Refusal>
        ensures answer { coin_told result ≡ member_made n own }
        ensures coin { IfOk result (λ c. MadeOf shares.now c) }
        ensures exact { ShownExactly }
    {
        let member = Member::new(n, own)?;
        let tosses = shares.map(Toss::new);
        Ok(ShareCoin { member, tosses })
    }

    // The toss of a round.
    fn toss(&self, at: TossedRound) -> Toss
        ensures { result ≡ toss_at self.now at.ballot at.round }
    {
        self.tosses[toss_place(at)]
    }

    // The bit shown for a round: exactly what polynomials say of the held shares.
    pub fn shown(&self, at: TossedRound) -> Option<bool>
        ensures value { result ≡ share_acts.shown self.now at.ballot at.round }
        ensures exact { Sound self.now → ShowsExactly self.now at.ballot at.round result }
    {
        self.toss(at).shown
    }
}

impl Coin for ShareCoin {
    ghost acts = { share_acts };

    ghost keeps = { shared_keeps };

    fn uses_shares() -> bool {
        true
    }

    fn bit(&self, at: TossedRound) -> Option<bool> {
        self.shown(at)
    }

    fn own_share(&self, at: TossedRound) -> Option<u8> {
        Some(self.toss(at).own)
    }

    fn share_of(&self, at: TossedRound, sender: u8) -> Option<u8> {
        self.toss(at).taken_of(sender)
    }

    fn take(&mut self, share: Share) -> Result<Heard, Reason> {
        let member = self.member;
        let place = toss_place(TossedRound {
            ballot: share.ballot,
            round: share.round,
        });
        self.tosses[place].take(member, share.sender, share.value)
    }
}
