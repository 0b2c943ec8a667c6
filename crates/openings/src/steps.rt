// The steps of the opening round, each taken where it applies.
// Functions, since the record is of another crate: a type around it would only add a field to each clause.
ghost use Rattle.std.specs.Prelude.{◌≡◌, ℕ};
ghost use Rattle.basis.specs.Steps.{taking, Idle};
ghost use Rattle.rules.specs.Rounds.{bit_set};
ghost use Rattle.phases.specs.Records.{meaning_of};
ghost use Rattle.openings.specs.Openings.{join_one, admit, leave, opening_steps, opening_settled};

use crate::admitting::{may_leave_by, tally_of};
use crate::proposing::vote_for_one;
use basis::member::Member;
use basis::replicas::{contains, has_honest, size_in};
use messages::message::BitSet;
use phases::round::PhasedRound;
use phases::vote_phase::VotePhase;

// Whether f + 1 first votes for 1 are recorded, and the own one or a second vote is not: another step than for 0.
pub fn may_join_one(round: &PhasedRound, member: Member) -> bool
    ensures { result ≡ (join_one member.n member.own).applies (meaning_of round.now) }
{
    round.is_entered()
        && ((!contains(round.first.one, member.own)
            || !round.has_voted_in(VotePhase::Second, member.own))
            && has_honest(size_in(round.first.one, member.n), member.n))
}

// Says the first vote 1 that f + 1 have cast, and, other than in later rounds, the second vote 1, unless one is said.
pub fn join_for_one(round: &mut PhasedRound, member: Member)
    ensures { meaning_of round.new ≡ taking (join_one member.n member.own) (meaning_of round.old) }
{
    if may_join_one(round, member) {
        round.record_in(VotePhase::First, BitSet::One, member.own);
        vote_for_one(round, member);
    }
}

// Whether 2f + 1 first votes for a bit are recorded, and no second vote is said.
#[tactic(auto, unfolding(phases::specs::Steps::admitted))]
pub fn may_admit(round: &PhasedRound, member: Member, bit: bool) -> bool
    ensures { result ≡ (admit member.n member.own (bit_set bit)).applies (meaning_of round.now) }
{
    round.is_entered()
        && (!round.has_voted_in(VotePhase::Second, member.own) && round.admits(member.n, bit))
}

// Says the second vote for a bit that is admitted by 2f + 1.
pub fn admit_bit(round: &mut PhasedRound, member: Member, bit: bool)
    ensures { meaning_of round.new ≡ taking (admit member.n member.own (bit_set bit)) (meaning_of round.old) }
{
    if may_admit(round, member, bit) {
        round.record_in(VotePhase::Second, BitSet::from(bit), member.own);
    }
}

// Whether the round is left: 2f + 1 senders have a second vote for an admitted bit, for the first time.
pub fn may_leave(round: &PhasedRound, member: Member) -> bool
    ensures { result ≡ (leave member.n member.own).applies (meaning_of round.now) }
{
    round.is_entered() && (round.lacks_verdict() && may_leave_by(round, member.n))
}

// Leaves the round with the bit that 2f + 1 support, or with both.
pub fn leave_round(round: &mut PhasedRound, member: Member)
    ensures { meaning_of round.new ≡ taking (leave member.n member.own) (meaning_of round.old) }
{
    if may_leave(round, member) {
        round.verdict = Some(tally_of(round, member.n));
    }
}

// Takes all steps, in their order; none is left that applies.
pub fn take_opening_steps(round: &mut PhasedRound, member: Member)
    ensures left { meaning_of round.new ≡ opening_settled member.n member.own (meaning_of round.old) }
    ensures none { Idle (opening_steps member.n member.own) (meaning_of round.new) }
{
    round.join_first(member, false);
    join_for_one(round, member);
    admit_bit(round, member, false);
    admit_bit(round, member, true);
    leave_round(round, member);
}
