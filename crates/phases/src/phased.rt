// The two supplied rules: two phases and three phases of votes.
ghost use Rattle.std.specs.Prelude.{◌≡◌, ℕ};
ghost use Rattle.basis.specs.Steps.{Idle};
ghost use Rattle.rules.specs.Laws.{EndsRounds};
ghost use Rattle.phases.specs.Records.{meaning_of};
ghost use Rattle.phases.specs.Steps.{steps_of, acts_of};
ghost use Rattle.phases.specs.Keeping.{either_keeps};

use crate::round::PhasedRound;
use crate::vote_phase::VotePhase;
use basis::heard::Heard;
use basis::member::Member;
use basis::refusal::Reason;
use messages::message::BitSet;
use messages::tags::VoteTags;
use rules::cast_vote::CastVote;
use rules::rule::Rule;

// First and second votes, and third votes where `THIRD` is set; the verdict is taken from the last ones.
pub struct Phased<const THIRD: bool>;

pub type TwoPhase = Phased<false>;

pub type ThreePhase = Phased<true>;

// Takes all steps of a round, in their order; none is left that applies. At rest no round is without its verdict. Kept
// apart, so that a round that is through costs its test alone.
#[inline(never)]
pub fn take_phases<const THIRD: bool>(round: &mut PhasedRound, member: Member)
    ensures left { meaning_of round.new ≡ (acts_of THIRD).steps member.n member.own (meaning_of round.old) }
    ensures none { Idle (steps_of THIRD member.n member.own) (meaning_of round.new) }
    ensures ends { EndsRounds (acts_of THIRD) }
{
    round.join_first(member, false);
    round.join_first(member, true);
    round.vote_second(member);
    if THIRD {
        round.vote_third(member);
        round.take_verdict_in(member, VotePhase::Third);
    } else {
        round.take_verdict_in(member, VotePhase::Second);
    }
}

// The same; that no step applies is seen at once in most rounds that have their verdict.
pub fn take_if_any<const THIRD: bool>(round: &mut PhasedRound, member: Member)
    ensures { meaning_of round.new ≡ (acts_of THIRD).steps member.n member.own (meaning_of round.old) }
{
    if !round.is_through(member, THIRD) {
        take_phases::<THIRD>(round, member);
    }
}

impl<const THIRD: bool> Rule for Phased<THIRD> {
    type Record = PhasedRound;

    ghost meaning = { meaning_of };

    ghost acts = { acts_of THIRD };

    ghost keeps = { either_keeps THIRD };

    fn tags() -> VoteTags {
        let tags = VoteTags::basic();
        if THIRD {
            tags.and(VotePhase::Third.tag())
        } else {
            tags
        }
    }

    #[tactic(auto, using(crate::proofs::Masks::default_cleared))]
    fn clear(row: &mut PhasedRound) {
        *row = PhasedRound::default();
    }

    fn enter(row: &mut PhasedRound, member: Member, bit: bool) {
        row.enter_with(member, bit);
    }

    #[inline(always)]
    fn hear(row: &mut PhasedRound, member: Member, vote: CastVote) -> Result<Heard, Reason> {
        row.hear_vote(vote)
    }

    fn take_steps(row: &mut PhasedRound, member: Member) {
        take_if_any::<THIRD>(row, member);
    }

    fn verdict(row: &PhasedRound) -> Option<BitSet> {
        row.verdict
    }

    fn has_recorded(row: &PhasedRound, vote: CastVote) -> bool {
        row.has_recorded(vote)
    }
}
