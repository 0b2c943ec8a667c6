// The calls of a round by the tag that votes bear, any byte: those of its phase, and nothing under a tag of no phase.
ghost use Rattle.std.specs.Prelude.{◌≡◌, ℕ, ◌<◌};
ghost use Rattle.basis.specs.Counts.{has};
ghost use Rattle.basis.specs.Steps.{taking};
ghost use Rattle.messages.specs.Tags.{bits_number};
ghost use Rattle.rules.specs.Rounds.{set_if_any, voted};
ghost use Rattle.phases.specs.Records.{meaning_of};
ghost use Rattle.phases.specs.Steps.{records, counted, enough, union, conclude};

use crate::counting::Counted;
use crate::round::PhasedRound;
use crate::vote_phase::VotePhase;
use basis::member::Member;
use messages::message::BitSet;

impl PhasedRound {
    // Records a vote under one of the three tags.
    pub fn record_vote(&mut self, tag: u8, bits: BitSet, sender: u8)
        requires { sender < 16 }
        ensures { meaning_of self.new ≡ records tag (bits_number bits) sender (meaning_of self.old) }
    {
        if let Ok(phase) = VotePhase::try_from(tag) {
            self.record_in(phase, bits, sender);
        }
    }

    // Whether a vote is recorded.
    #[tactic(auto, using(crate::proofs::Nothing::phase_tag, crate::proofs::Masks::no_phase))]
    pub fn has_vote(&self, tag: u8, bits: BitSet, sender: u8) -> bool
        ensures { result ≡ (meaning_of self.now).votes tag (bits_number bits) sender }
    {
        VotePhase::try_from(tag).is_ok_and(|phase| self.has_vote_in(phase, bits, sender))
    }

    // Whether some vote of a sender is recorded under a tag.
    #[tactic(auto, using(crate::proofs::Nothing::unvoted))]
    pub fn has_voted(&self, tag: u8, sender: u8) -> bool
        ensures { result ≡ voted tag sender (meaning_of self.now) }
    {
        VotePhase::try_from(tag).is_ok_and(|phase| self.has_voted_in(phase, sender))
    }

    // The votes under a tag that lie within the set of admitted bits.
    #[tactic(auto, using(basis::proofs::Counts::has_none, crate::proofs::Nothing::uncounted))]
    pub fn count_votes(&self, n: u8, tag: u8) -> Counted
        ensures zero { (j : ℕ) → has result.zero j ≡ counted n (meaning_of self.now) tag 1 j }
        ensures one { (j : ℕ) → has result.one j ≡ counted n (meaning_of self.now) tag 2 j }
    {
        match VotePhase::try_from(tag) {
            Ok(phase) => self.count_in(n, phase),
            Err(_) => Counted { zero: 0, one: 0 },
        }
    }

    // Whether 2f + 1 votes under a tag lie within the set of admitted bits.
    #[tactic(auto, using(crate::proofs::Nothing::few))]
    pub fn has_enough(&self, n: u8, tag: u8) -> bool
        ensures { result ≡ enough n (meaning_of self.now) tag }
    {
        VotePhase::try_from(tag).is_ok_and(|phase| self.has_enough_in(n, phase))
    }

    // The union of those votes.
    #[tactic(auto, using(crate::proofs::Nothing::void))]
    pub fn union_under(&self, n: u8, tag: u8) -> Option<BitSet>
        ensures { set_if_any result ≡ union n (meaning_of self.now) tag }
    {
        match VotePhase::try_from(tag) {
            Ok(phase) => self.union_in(n, phase),
            Err(_) => None,
        }
    }

    // Whether 2f + 1 final votes lie within the set of admitted bits and there is no verdict.
    #[tactic(auto, using(crate::proofs::Nothing::phase_tag, crate::proofs::Nothing::few))]
    pub fn may_conclude(&self, member: Member, tag: u8) -> bool
        ensures { result ≡ (conclude member.n member.own tag).applies (meaning_of self.now) }
    {
        VotePhase::try_from(tag).is_ok_and(|phase| self.may_conclude_in(member, phase))
    }

    // Takes the verdict, the union of those votes.
    #[tactic(auto, using(crate::proofs::Nothing::few))]
    pub fn take_verdict(&mut self, member: Member, tag: u8)
        ensures { meaning_of self.new ≡ taking (conclude member.n member.own tag) (meaning_of self.old) }
    {
        if let Ok(phase) = VotePhase::try_from(tag) {
            self.take_verdict_in(member, phase);
        }
    }
}
