// A round that is through: it is seen without counting that no step applies.
ghost use Rattle.std.specs.Prelude.{◌≡◌, true, false};
ghost use Rattle.basis.specs.Steps.{Idle};
ghost use Rattle.rules.specs.Rounds.{bit_set};
ghost use Rattle.phases.specs.Records.{meaning_of};
ghost use Rattle.phases.specs.Steps.{join, steps_of};

use crate::round::PhasedRound;
use crate::vote_phase::VotePhase;
use basis::member::Member;
use basis::replicas::contains;
use messages::message::BitSet;

impl PhasedRound {
    // Whether the first vote for a bit is said, or nobody has cast it.
    fn is_joined(&self, member: Member, bit: bool) -> bool
        ensures { result ≡ true → (join member.n member.own (bit_set bit)).applies (meaning_of self.now) ≡ false }
    {
        let cast = self.first.cast_for(BitSet::from(bit));
        contains(cast, member.own) | (cast == 0)
    }

    // Whether all votes are said that may be, and the verdict is there. All tests are made at once: most rounds pass all.
    pub fn is_through(&self, member: Member, third: bool) -> bool
        ensures { result ≡ true → Idle (steps_of third member.n member.own) (meaning_of self.now) }
    {
        let first = self.is_joined(member, false) & self.is_joined(member, true);
        let second = self.has_voted_in(VotePhase::Second, member.own);
        let last = !third | self.has_voted_in(VotePhase::Third, member.own);
        first & second & last & !self.lacks_verdict()
    }
}
