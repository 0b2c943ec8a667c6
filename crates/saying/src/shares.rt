// The shares that a replica has said.
ghost use Rattle.std.specs.Prelude.{◌≡◌, ℕ, suc, ◌+◌, ◌*◌, ◌<◌, ◌≤◌, None, length};
ghost use Rattle.std.specs.Option.{option_map};
ghost use Rattle.messages.specs.Writing.{on_sheet};
ghost use Rattle.outcomes.specs.Saying.{first_of, share_from, first_share_in, first_share};

use crate::below::rounds_below;
use crate::view::SayingView;
use ballots::later_round::LaterRound;
use ballots::rounds::LATER;
use broadcast::say::slots_below;
use coins::coin::Coin;
use messages::message::Message;
use messages::tags::SHARE;
use rules::rule::Rule;
use sheets::sheet::Sheet;

impl<S: Sheet, R: Rule, C: Coin> SayingView<'_, S, R, C> {
    // The own share of a later round, if it is taken and stands at or after a position.
    fn share_from(&self, from: u32, at: LaterRound) -> Option<Message<S>>
        ensures { option_map (on_sheet S.Sheet.bytes) result ≡ share_from C.Coin.acts self.now.member.own self.now.coin.now from at.slot at.later }
    {
        let share = self.coin.share_of(at.tossed_round(), self.member.own)?;
        let message = Message::Share {
            slot: at.slot,
            round: at.round(),
            share,
        };
        Some(message).filter(|message: &Message<S>| message.position() >= from)
    }

    // Passes over the share of a round that lies wholly below a position. That a share fits a byte is known where it is read:
    // it is read for that alone, and nothing comes of it, so that a compiler leaves the reading out.
    fn pass_share(&self, from: u32, at: LaterRound)
        requires { ((48 * 16 + at.slot) * 16 + suc at.later) * 256 + 256 ≤ from }
        ensures { share_from C.Coin.acts self.now.member.own self.now.coin.now from at.slot at.later ≡ None }
    {
        if let Some(share) = self.coin.share_of(at.tossed_round(), self.member.own) {
            prove!(share <= u8::MAX);
        }
    }

    // The same for the first so many rounds of a ballot.
    fn pass_rounds(&self, from: u32, slot: u8, rounds: u8)
        requires slot { slot < self.now.member.n }
        requires rounds { rounds ≤ 15 }
        requires below { (r : ℕ) → r < rounds → ((48 * 16 + slot) * 16 + suc r) * 256 + 256 ≤ from }
        ensures { first_of (share_from C.Coin.acts self.now.member.own self.now.coin.now from slot) rounds ≡ None }
    {
        for later in 0..rounds {
            self.pass_share(from, LaterRound { slot, later });
        }
    }

    // The same for the first so many ballots.
    fn pass_ballots(&self, from: u32, ballots: u8)
        requires ballots { ballots ≤ self.now.member.n }
        requires below { (k : ℕ) → k < ballots → (48 * 16 + k) * 4096 + 4096 ≤ from }
        ensures { first_of (first_share_in C.Coin.acts self.now.member.own self.now.coin.now from) ballots ≡ None }
    {
        for slot in 0..ballots {
            self.pass_rounds(from, slot, LATER);
        }
    }

    // The first share of a ballot, from the round on that does not lie wholly below the position.
    fn first_share_in(&self, from: u32, slot: u8) -> Option<Message<S>>
        requires { slot < self.now.member.n }
        ensures { option_map (on_sheet S.Sheet.bytes) result ≡ first_share_in C.Coin.acts self.now.member.own self.now.coin.now from slot }
    {
        let passed = rounds_below(from, SHARE, slot).saturating_sub(1);
        self.pass_rounds(from, slot, passed);
        for later in passed..LATER {
            if let Some(share) = self.share_from(from, LaterRound { slot, later }) {
                return Some(share);
            }
        }
        None
    }

    // The first share of all ballots, from the one on that does not lie wholly below the position.
    fn first_share_of_all(&self, from: u32) -> Option<Message<S>>
        ensures { option_map (on_sheet S.Sheet.bytes) result ≡ first_of (first_share_in C.Coin.acts self.now.member.own self.now.coin.now from) self.now.member.n }
    {
        let passed = slots_below(from, self.member, SHARE);
        self.pass_ballots(from, passed);
        for slot in passed..self.member.n {
            if let Some(share) = self.first_share_in(from, slot) {
                return Some(share);
            }
        }
        None
    }

    // The same, where the coin uses shares.
    pub fn first_share(&self, from: u32) -> Option<Message<S>>
        ensures { option_map (on_sheet S.Sheet.bytes) result ≡ first_share C.Coin.acts self.now.member.own self.now.coin.now from self.now.member.n }
    {
        if !C::uses_shares() {
            return None;
        }
        self.first_share_of_all(from)
    }
}
