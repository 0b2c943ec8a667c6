// Entering and hearing: the calls of a round that are the same under both rules.
ghost use Rattle.std.specs.Prelude.{◌≡◌, ℕ, ◌<◌};
ghost use Rattle.basis.specs.Refusals.{numbered};
ghost use Rattle.rules.specs.Rounds.{vote_of, bit_set, recorded, contradicts, hear_answer};
ghost use Rattle.phases.specs.Phases.{tag_of};
ghost use Rattle.phases.specs.Records.{meaning_of};
ghost use Rattle.phases.specs.Steps.{enters, hears, is_entered_lem};

use crate::round::PhasedRound;
use crate::vote_phase::VotePhase;
use basis::heard::Heard;
use basis::member::Member;
use basis::refusal::Reason;
use basis::replicas::contains;
use messages::message::BitSet;
use rules::cast_vote::CastVote;

impl PhasedRound {
    // Whether the round was entered.
    pub fn is_entered(&self) -> bool
        ensures { result ≡ is_entered_lem (meaning_of self.now) }
    {
        self.entered.is_some()
    }

    // Whether a vote is recorded; under another tag than a phase's none is.
    pub fn has_recorded(&self, vote: CastVote) -> bool
        ensures { result ≡ recorded (vote_of vote) (meaning_of self.now) }
    {
        let cast = self.votes_under(vote.tag).cast_for(vote.bits);
        contains(cast, vote.sender)
    }

    // Whether a vote that is not recorded contradicts one that is: only first votes may be cast for both bits.
    fn is_contradicted(&self, phase: VotePhase, sender: u8) -> bool
        ensures { result ≡ contradicts (record { tag = tag_of phase; set = 0; sender = sender }) (meaning_of self.now) }
    {
        (phase != VotePhase::First) & self.has_voted_in(phase, sender)
    }

    // Hears a vote: it is recorded where it is new. A vote under another tag than a phase's is new and leaves no trace.
    #[inline(always)]
    pub fn hear_vote(&mut self, vote: CastVote) -> Result<Heard, Reason>
        requires { vote.sender < 16 }
        ensures answer { numbered result ≡ hear_answer (vote_of vote) (meaning_of self.old) }
        ensures left { meaning_of self.new ≡ hears (vote_of vote) (meaning_of self.old) }
    {
        let Ok(phase) = VotePhase::try_from(vote.tag) else {
            return Ok(Heard::New);
        };
        if self.has_vote_in(phase, vote.bits, vote.sender) {
            return Ok(Heard::Known);
        }
        if self.is_contradicted(phase, vote.sender) {
            return Err(Reason::Contradiction);
        }
        self.record_in(phase, vote.bits, vote.sender);
        Ok(Heard::New)
    }

    // Enters with a bit and says its first vote, where the round was not entered.
    pub fn enter_with(&mut self, member: Member, bit: bool)
        ensures { meaning_of self.new ≡ enters member.own (bit_set bit) (meaning_of self.old) }
    {
        if !self.is_entered() {
            self.entered = Some(bit);
            self.record_in(VotePhase::First, BitSet::from(bit), member.own);
        }
    }
}
