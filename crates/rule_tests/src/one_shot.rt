// The one-shot rule: a replica votes once, on entering; a verdict of one bit is taken from a quorum of first and of final
// votes for it, and there is no other verdict.
ghost use Rattle.std.specs.Prelude.{◌≡◌, ◌<◌, ◌==◌, true, IfSome};
ghost use Rattle.messages.specs.Tags.{bits_number};
ghost use Rattle.rules.specs.Rounds.{Vote, vote_of, bit_set, set_if_any, voted, contradicts, recorded};
ghost use Rattle.rule_tests.specs.OneShot.{with_vote, settled_on, found_lem, one_shot};
ghost use Rattle.rule_tests.specs.OneShotKeeps.{one_shot_keeps};
ghost use Rattle.rule_tests.specs.Records.{inside, place, place_if_any, cast_of, meaning_of};

use basis::heard::Heard;
use basis::member::Member;
use basis::refusal::Reason;
use basis::replicas::{ReplicaSet, contains, is_quorum, size_in, with};
use messages::message::BitSet;
use messages::tags::VoteTags;
use rules::cast_vote::CastVote;
use rules::rule::Rule;

// The tag of final votes.
pub const FINAL: u8 = 0x2f;

// The entered bit, a mask for each of 16 tags and three sets, the verdict.
#[derive(Clone, Copy)]
pub struct OneShotRound {
    pub entered: Option<bool>,
    pub masks: [ReplicaSet; 48],
    pub verdict: Option<BitSet>,
}

// Where the mask of a tag and a set stands.
fn place_of(tag: u8, bits: BitSet) -> Option<usize>
    ensures value { result ≡ place_if_any tag (bits_number bits) }
    ensures within { IfSome result (λ i. i < 48) }
{
    if tag < 0x20 || tag > 0x2f {
        return None;
    }
    Some(usize::from(tag - 0x20) * 3 + usize::from(u8::from(bits) - 1))
}

impl OneShotRound {
    // Who cast this set under this tag.
    fn cast(&self, tag: u8, bits: BitSet) -> ReplicaSet
        ensures { result ≡ cast_of self.now tag (bits_number bits) }
    {
        match place_of(tag, bits) {
            Some(place) => self.masks[place],
            None => 0,
        }
    }

    // Whether some vote of a sender is recorded under a tag.
    fn has_voted(&self, tag: u8, sender: u8) -> bool
        ensures { result ≡ voted tag sender (meaning_of self.now) }
    {
        contains(self.cast(tag, BitSet::Zero), sender)
            | (contains(self.cast(tag, BitSet::One), sender)
                | contains(self.cast(tag, BitSet::Both), sender))
    }

    // Records a vote.
    fn record_vote(&mut self, tag: u8, bits: BitSet, sender: u8)
        requires sender { sender < 16 }
        requires tag { inside tag (bits_number bits) ≡ true }
        ensures { meaning_of self.new ≡ with_vote tag (bits_number bits) sender (meaning_of self.old) }
    {
        if let Some(place) = place_of(tag, bits) {
            self.masks[place] = with(self.masks[place], sender);
        }
    }
}

impl OneShotRound {
    // Whether 2f + 1 first votes and 2f + 1 final votes are for a bit.
    fn has_settled_on(&self, n: u8, bit: bool) -> bool
        ensures { result ≡ settled_on n (meaning_of self.now) (bit_set bit) }
    {
        let bits = BitSet::from(bit);
        let first = is_quorum(size_in(self.cast(0x20, bits), n), n);
        let last = is_quorum(size_in(self.cast(FINAL, bits), n), n);
        first & last
    }

    // The lowest bit that is settled on.
    fn found(&self, n: u8) -> Option<BitSet>
        ensures { set_if_any result ≡ found_lem n (meaning_of self.now) }
    {
        if self.has_settled_on(n, false) {
            Some(BitSet::Zero)
        } else if self.has_settled_on(n, true) {
            Some(BitSet::One)
        } else {
            None
        }
    }
}

// First and final votes, both said on entering.
pub struct OneShot;

impl Rule for OneShot {
    type Record = OneShotRound;

    ghost meaning = { meaning_of };

    ghost acts = { one_shot };

    ghost keeps = { one_shot_keeps };

    fn tags() -> VoteTags {
        VoteTags::basic().and(FINAL)
    }

    fn clear(row: &mut OneShotRound) {
        *row = OneShotRound {
            entered: None,
            masks: [0; 48],
            verdict: None,
        };
    }

    fn enter(row: &mut OneShotRound, member: Member, bit: bool) {
        if row.entered.is_none() {
            let bits = BitSet::from(bit);
            row.entered = Some(bit);
            row.record_vote(0x20, bits, member.own);
            row.record_vote(FINAL, bits, member.own);
        }
    }

    fn hear(row: &mut OneShotRound, _member: Member, vote: CastVote) -> Result<Heard, Reason> {
        if contains(row.cast(vote.tag, vote.bits), vote.sender) {
            return Ok(Heard::Known);
        }
        if (vote.tag > 0x20) & row.has_voted(vote.tag, vote.sender) {
            return Err(Reason::Contradiction);
        }
        row.record_vote(vote.tag, vote.bits, vote.sender);
        Ok(Heard::New)
    }

    fn take_steps(row: &mut OneShotRound, member: Member) {
        if row.verdict.is_none() {
            row.verdict = row.found(member.n);
        }
    }

    fn verdict(row: &OneShotRound) -> Option<BitSet> {
        row.verdict
    }

    fn has_recorded(row: &OneShotRound, vote: CastVote) -> bool {
        contains(row.cast(vote.tag, vote.bits), vote.sender)
    }
}
