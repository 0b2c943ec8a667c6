// Proposing and proposing again.
// Functions, since the record is of another crate: a type around it would only add a field to each clause.
ghost use Rattle.std.specs.Prelude.{◌≡◌, ℕ};
ghost use Rattle.basis.specs.Steps.{taking};
ghost use Rattle.rules.specs.Rounds.{bit_set};
ghost use Rattle.phases.specs.Records.{meaning_of};
ghost use Rattle.openings.specs.Openings.{once_second, proposed, again};

use basis::member::Member;
use messages::message::BitSet;
use phases::round::PhasedRound;
use phases::vote_phase::VotePhase;

// Says the second vote 1, unless a second vote is said.
pub fn vote_for_one(round: &mut PhasedRound, member: Member)
    ensures { meaning_of round.new ≡ once_second member.own 2 (meaning_of round.old) }
{
    if !round.has_voted_in(VotePhase::Second, member.own) {
        round.record_in(VotePhase::Second, BitSet::One, member.own);
    }
}

// Proposes a bit: says its first vote, and for 1 the second vote too.
pub fn propose(round: &mut PhasedRound, member: Member, bit: bool)
    ensures { meaning_of round.new ≡ proposed member.own (bit_set bit) (meaning_of round.old) }
{
    round.entered = Some(bit);
    round.record_in(VotePhase::First, BitSet::from(bit), member.own);
    if bit {
        vote_for_one(round, member);
    }
}

// Whether the first vote 1 is still to be said.
pub fn may_propose_again(round: &PhasedRound, member: Member) -> bool
    ensures { result ≡ (again member.own).applies (meaning_of round.now) }
{
    round.is_entered() & !round.has_vote_in(VotePhase::First, BitSet::One, member.own)
}

// Proposes 1 again, for a slot that was delivered after proposing: says the first vote 1 and no more.
pub fn propose_again(round: &mut PhasedRound, member: Member)
    ensures { meaning_of round.new ≡ taking (again member.own) (meaning_of round.old) }
{
    if may_propose_again(round, member) {
        round.record_in(VotePhase::First, BitSet::One, member.own);
    }
}
