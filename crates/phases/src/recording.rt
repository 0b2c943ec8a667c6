// Looking votes up and recording them.
ghost use Rattle.std.specs.Prelude.{◌≡◌, ℕ, ◌<◌};
ghost use Rattle.messages.specs.Tags.{bits_number};
ghost use Rattle.rules.specs.Rounds.{voted};
ghost use Rattle.phases.specs.Records.{under, meaning_of};
ghost use Rattle.phases.specs.Elsewhere.{NothingElsewhere};
ghost use Rattle.phases.specs.Phases.{tag_of};
ghost use Rattle.phases.specs.Steps.{says};

use crate::round::PhasedRound;
use crate::vote_phase::VotePhase;
use crate::votes::Votes;
use basis::replicas::contains;
use messages::message::BitSet;

impl PhasedRound {
    // The votes of a phase.
    pub fn votes_in(&self, phase: VotePhase) -> Votes
        ensures { result ≡ under self.now (tag_of phase) }
    {
        match phase {
            VotePhase::First => self.first,
            VotePhase::Second => self.second,
            VotePhase::Third => self.third,
        }
    }

    // The votes under a tag; under another tag than a phase's there are none, and nothing comes of them.
    #[tactic(auto, using(crate::proofs::Masks::none_under, crate::proofs::Nothing::nothing_elsewhere))]
    pub fn votes_under(&self, tag: u8) -> Votes
        ensures value { result ≡ under self.now tag }
        ensures others { NothingElsewhere }
    {
        match VotePhase::try_from(tag) {
            Ok(phase) => self.votes_in(phase),
            Err(_) => Votes::default(),
        }
    }

    // Records a vote of a phase.
    #[tactic(auto, using(crate::proofs::Masks::added_first, crate::proofs::Masks::added_second, crate::proofs::Masks::added_third))]
    pub fn record_in(&mut self, phase: VotePhase, bits: BitSet, sender: u8)
        requires { sender < 16 }
        ensures { meaning_of self.new ≡ says (tag_of phase) (bits_number bits) sender (meaning_of self.old) }
    {
        match phase {
            VotePhase::First => self.first.add(bits, sender),
            VotePhase::Second => self.second.add(bits, sender),
            VotePhase::Third => self.third.add(bits, sender),
        }
    }

    // Whether a vote is recorded.
    pub fn has_vote_in(&self, phase: VotePhase, bits: BitSet, sender: u8) -> bool
        ensures { result ≡ (meaning_of self.now).votes (tag_of phase) (bits_number bits) sender }
    {
        contains(self.votes_in(phase).cast_for(bits), sender)
    }

    // Whether some vote of a sender is recorded in a phase.
    #[tactic(auto, using(basis::proofs::Counts::has_or))]
    pub fn has_voted_in(&self, phase: VotePhase, sender: u8) -> bool
        ensures { result ≡ voted (tag_of phase) sender (meaning_of self.now) }
    {
        let cast = self.votes_in(phase);
        contains(cast.zero | (cast.one | cast.both), sender)
    }
}
