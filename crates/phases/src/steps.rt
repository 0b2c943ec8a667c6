// The steps of an entered round, each taken where it applies.
ghost use Rattle.std.specs.Prelude.{◌≡◌, ℕ, not, ◌&&◌, ◌||◌};
ghost use Rattle.basis.specs.Steps.{taking};
ghost use Rattle.rules.specs.Rounds.{bit_set, voted};
ghost use Rattle.phases.specs.Phases.{tag_of};
ghost use Rattle.phases.specs.Records.{meaning_of};
ghost use Rattle.phases.specs.Steps.{join, second, third, conclude, is_entered_lem, lowest_admitted, enough};

use crate::counting::holds_honest;
use crate::round::PhasedRound;
use crate::vote_phase::VotePhase;
use basis::member::Member;
use basis::replicas::contains;
use messages::message::BitSet;

impl PhasedRound {
    // Whether f + 1 first votes for a bit are recorded, and the own one is not.
    pub fn may_join(&self, member: Member, bit: bool) -> bool
        ensures { result ≡ (join member.n member.own (bit_set bit)).applies (meaning_of self.now) }
    {
        let cast = self.first.cast_for(BitSet::from(bit));
        self.is_entered() && (!contains(cast, member.own) && holds_honest(cast, member.n))
    }

    // Says the first vote that f + 1 replicas have cast.
    pub fn join_first(&mut self, member: Member, bit: bool)
        ensures { meaning_of self.new ≡ taking (join member.n member.own (bit_set bit)) (meaning_of self.old) }
    {
        if self.may_join(member, bit) {
            self.record_in(VotePhase::First, BitSet::from(bit), member.own);
        }
    }

    // Whether a bit is admitted and no second vote said.
    pub fn may_vote_second(&self, member: Member) -> bool
        ensures { result ≡ (second member.n member.own).applies (meaning_of self.now) }
    {
        self.is_entered()
            && (!self.has_voted_in(VotePhase::Second, member.own)
                && (self.admits(member.n, false) || self.admits(member.n, true)))
    }

    // Says the second vote, for the lowest admitted bit.
    pub fn vote_second(&mut self, member: Member)
        ensures { meaning_of self.new ≡ taking (second member.n member.own) (meaning_of self.old) }
    {
        if self.may_vote_second(member) {
            let bit = !self.admits(member.n, false);
            self.record_in(VotePhase::Second, BitSet::from(bit), member.own);
        }
    }

    // Whether 2f + 1 second votes are of admitted bits and no third vote is said.
    pub fn may_vote_third(&self, member: Member) -> bool
        ensures { result ≡ (third member.n member.own).applies (meaning_of self.now) }
    {
        self.is_entered()
            && (!self.has_voted_in(VotePhase::Third, member.own)
                && self.has_enough_in(member.n, VotePhase::Second))
    }

    // Says the third vote, for the set of those bits.
    #[tactic(auto, using(crate::specs::Unions::union_some))]
    pub fn vote_third(&mut self, member: Member)
        ensures { meaning_of self.new ≡ taking (third member.n member.own) (meaning_of self.old) }
    {
        if self.may_vote_third(member) {
            if let Some(bits) = self.union_in(member.n, VotePhase::Second) {
                self.record_in(VotePhase::Third, bits, member.own);
            }
        }
    }

    // Whether 2f + 1 final votes lie within the set of admitted bits and there is no verdict.
    pub fn may_conclude_in(&self, member: Member, phase: VotePhase) -> bool
        ensures { result ≡ (conclude member.n member.own (tag_of phase)).applies (meaning_of self.now) }
    {
        self.is_entered() && (self.lacks_verdict() && self.has_enough_in(member.n, phase))
    }

    // Takes the verdict, the union of those votes.
    pub fn take_verdict_in(&mut self, member: Member, phase: VotePhase)
        ensures { meaning_of self.new ≡ taking (conclude member.n member.own (tag_of phase)) (meaning_of self.old) }
    {
        if self.may_conclude_in(member, phase) {
            self.verdict = self.union_in(member.n, phase);
        }
    }
}
