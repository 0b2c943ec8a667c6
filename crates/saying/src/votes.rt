// The votes that a replica has said.
ghost use Rattle.std.specs.Prelude.{◌≡◌, ℕ, ◌+◌, ◌*◌, ◌<◌, ◌≤◌, length};
ghost use Rattle.std.specs.Option.{option_map};
ghost use Rattle.messages.specs.Writing.{on_sheet};
ghost use Rattle.outcomes.specs.Holdings.{Running, state_of};
ghost use Rattle.outcomes.specs.Tables.{holding};
ghost use Rattle.outcomes.specs.Saying.{vote_message, may_be_cast, is_vote_said, vote_from, first_value, first_in_ballot, first_under};

use crate::below::{ROUNDS, rounds_below};
use crate::view::SayingView;
use broadcast::say::slots_below;
use coins::coin::Coin;
use messages::message::{BitSet, Message, Vote};
use rules::cast_vote::CastVote;
use rules::rule::Rule;
use sheets::sheet::Sheet;

// A vote's message: under 0x20 and 0x21 for one bit, else for a set.
fn vote_message<S>(tag: u8, slot: u8, round: u8, bits: BitSet) -> Message<S>
    ensures { result ≡ vote_message tag slot round bits }
{
    match tag {
        0x00..=0x21 => Message::Bit {
            vote: Vote::of(tag),
            slot,
            round,
            bit: bits == BitSet::One,
        },
        _ => Message::Set {
            tag,
            slot,
            round,
            bits,
        },
    }
}

// Whether there is such a vote: for both bits under 0x20 and 0x21, and of a set in round 0, there is none.
fn may_be_cast(tag: u8, round: u8, bits: BitSet) -> bool
    ensures { result ≡ may_be_cast tag round bits }
{
    match tag {
        0x00..=0x21 => bits != BitSet::Both,
        _ => round >= 1,
    }
}

impl<S: Sheet, R: Rule, C: Coin> SayingView<'_, S, R, C> {
    // Whether a vote is said: recorded under the own number.
    fn is_vote_said(&self, tag: u8, slot: u8, round: u8, bits: BitSet) -> bool
        requires slot { slot < self.now.member.n }
        requires round { round < 16 }
        ensures { result ≡ is_vote_said self.now.member.own (holding R.Rule.meaning Running self.now.records.now self.now.rounds.now self.now.places.now self.now.coin.now) tag slot round bits }
    {
        let sender = self.member.own;
        may_be_cast(tag, round, bits)
            && self.has_recorded(slot, round, CastVote { tag, bits, sender })
    }

    // The vote, if it is said and stands at or after a position. Inlined: it is asked for in six places, and a look costs less
    // than a call.
    #[inline(always)]
    fn vote_from(&self, from: u32, tag: u8, slot: u8, round: u8, bits: BitSet) -> Option<Message<S>>
        requires slot { slot < self.now.member.n }
        requires round { round < 16 }
        ensures { option_map (on_sheet S.Sheet.bytes) result ≡ vote_from self.now.member.own (holding R.Rule.meaning Running self.now.records.now self.now.rounds.now self.now.places.now self.now.coin.now) from tag slot round bits }
    {
        if !self.is_vote_said(tag, slot, round, bits) {
            return None;
        }
        Some(vote_message(tag, slot, round, bits)).filter(|vote: &Message<S>| vote.position()
            >= from)
    }

    // The first vote of a round. Inlined, as it is asked for in two places.
    #[inline(always)]
    fn first_value(&self, from: u32, tag: u8, slot: u8, round: u8) -> Option<Message<S>>
        requires slot { slot < self.now.member.n }
        requires round { round < 16 }
        ensures { option_map (on_sheet S.Sheet.bytes) result ≡ first_value self.now.member.own (holding R.Rule.meaning Running self.now.records.now self.now.rounds.now self.now.places.now self.now.coin.now) from tag slot round }
    {
        let one = || self.vote_from(from, tag, slot, round, BitSet::One);
        let both = || self.vote_from(from, tag, slot, round, BitSet::Both);
        self.vote_from(from, tag, slot, round, BitSet::Zero)
            .or_else(one)
            .or_else(both)
    }

    // The first vote of the opening round, where that is not among the first so many rounds, which lie wholly below the
    // position.
    fn first_at_opening(&self, from: u32, tag: u8, slot: u8, passed: u8) -> Option<Message<S>>
        requires slot { slot < self.now.member.n }
        requires tag { 32 ≤ tag }
        requires below { (r : ℕ) → r < passed → ((tag * 16 + slot) * 16 + r) * 256 + 256 ≤ from }
        ensures { option_map (on_sheet S.Sheet.bytes) result ≡ first_value self.now.member.own (holding R.Rule.meaning Running self.now.records.now self.now.rounds.now self.now.places.now self.now.coin.now) from tag slot 0 }
    {
        if passed > 0 {
            return None;
        }
        self.first_value(from, tag, slot, 0)
    }

    // The first vote of a ballot, from the round on that does not lie wholly below the position. The opening round, whose
    // votes stand in another table, is looked at ahead of the loop, so that this one walks a single table.
    fn first_in_ballot(&self, from: u32, tag: u8, slot: u8) -> Option<Message<S>>
        requires slot { slot < self.now.member.n }
        requires tag { 32 ≤ tag }
        ensures { option_map (on_sheet S.Sheet.bytes) result ≡ first_in_ballot self.now.member.own (holding R.Rule.meaning Running self.now.records.now self.now.rounds.now self.now.places.now self.now.coin.now) from tag slot }
    {
        let passed = rounds_below(from, tag, slot);
        if let Some(vote) = self.first_at_opening(from, tag, slot, passed) {
            return Some(vote);
        }
        for round in passed.max(1)..ROUNDS {
            if let Some(vote) = self.first_value(from, tag, slot, round) {
                return Some(vote);
            }
        }
        None
    }

    // The first vote under a tag, from the slot on that does not lie wholly below the position.
    pub fn first_under(&self, from: u32, tag: u8) -> Option<Message<S>>
        requires { 32 ≤ tag }
        ensures { option_map (on_sheet S.Sheet.bytes) result ≡ first_under self.now.member.own (holding R.Rule.meaning Running self.now.records.now self.now.rounds.now self.now.places.now self.now.coin.now) from self.now.member.n tag }
    {
        for slot in slots_below(from, self.member, tag)..self.member.n {
            if let Some(vote) = self.first_in_ballot(from, tag, slot) {
                return Some(vote);
            }
        }
        None
    }
}
