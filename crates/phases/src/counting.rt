// Votes that count: those that lie within the set of admitted bits.
ghost use Rattle.std.specs.Prelude.{◌≡◌, ℕ, ◌+◌, ◌&&◌, ◌||◌, leb, if◌then◌else◌, ◌==◌, nat_le};
ghost use Rattle.basis.specs.Counts.{has, count};
ghost use Rattle.basis.specs.Halls.{quorum, beyond_faults};
ghost use Rattle.rules.specs.Rounds.{bit_set, set_if_any, voted};
ghost use Rattle.phases.specs.Phases.{tag_of};
ghost use Rattle.phases.specs.Records.{meaning_of};
ghost use Rattle.phases.specs.Steps.{admitted, counted, enough, union};

use crate::round::PhasedRound;
use crate::vote_phase::VotePhase;
use basis::replicas::{ReplicaSet, has_honest, is_quorum, size_in};
use messages::message::BitSet;

// Whose counted votes hold 0, and whose hold 1.
#[derive(Clone, Copy, PartialEq, Eq, Debug)]
pub struct Counted {
    pub zero: ReplicaSet,
    pub one: ReplicaSet,
}

// The set where a flag is set, and else the empty one.
pub fn where_set(flag: bool, members: ReplicaSet) -> ReplicaSet
    ensures { result ≡ (if flag then members else 0) }
{
    if flag { members } else { 0 }
}

// Whether f + 1 replicas of a hall of n are in a set. That nobody is in it is seen without counting.
pub fn holds_honest(members: ReplicaSet, n: u8) -> bool
    ensures { result ≡ nat_le (beyond_faults n) (count n (has members)) }
{
    members != 0 && has_honest(size_in(members, n), n)
}

impl PhasedRound {
    // Whether a bit is admitted: 2f + 1 first votes for it are recorded. Kept apart, as the other counts: where nothing is
    // to be counted, the steps of a round are a few tests that way.
    #[tactic(auto, unfolding(crate::specs::Steps::admitted))]
    #[inline(never)]
    pub fn admits(&self, n: u8, bit: bool) -> bool
        ensures { result ≡ admitted n (meaning_of self.now) (bit_set bit) }
    {
        is_quorum(size_in(self.first.cast_for(BitSet::from(bit)), n), n)
    }

    // The votes of a phase that lie within the set of admitted bits.
    pub fn count_in(&self, n: u8, phase: VotePhase) -> Counted
        ensures zero { (j : ℕ) → has result.zero j ≡ counted n (meaning_of self.now) (tag_of phase) 1 j }
        ensures one { (j : ℕ) → has result.one j ≡ counted n (meaning_of self.now) (tag_of phase) 2 j }
    {
        let cast = self.votes_in(phase);
        let zero = self.admits(n, false);
        let one = self.admits(n, true);
        let both = where_set(zero & one, cast.both);
        Counted {
            zero: where_set(zero, cast.zero) | both,
            one: where_set(one, cast.one) | both,
        }
    }
}

impl Counted {
    // Whether they are 2f + 1.
    #[tactic(auto, using(basis::proofs::Counts::count_cong, basis::proofs::Counts::has_or))]
    pub fn is_enough(self, n: u8) -> bool
        ensures { result ≡ nat_le (quorum n) (count n (λ j. has self.zero j || has self.one j)) }
    {
        is_quorum(size_in(self.zero | self.one, n), n)
    }

    // The union of them; none where there are none.
    pub fn union_of(self, n: u8) -> Option<BitSet>
        ensures { set_if_any result ≡ (if leb 1 (count n (has self.zero)) then 1 else 0) + (if leb 1 (count n (has self.one)) then 2 else 0) }
    {
        match (size_in(self.zero, n) >= 1, size_in(self.one, n) >= 1) {
            (true, true) => Some(BitSet::Both),
            (true, false) => Some(BitSet::Zero),
            (false, true) => Some(BitSet::One),
            (false, false) => None,
        }
    }
}

impl PhasedRound {
    // Whether 2f + 1 votes of a phase lie within the set of admitted bits.
    #[tactic(auto, using(basis::proofs::Counts::count_cong), unfolding(crate::specs::Steps::enough))]
    #[inline(never)]
    fn has_enough_admitted(&self, n: u8, phase: VotePhase) -> bool
        ensures { result ≡ enough n (meaning_of self.now) (tag_of phase) }
    {
        self.count_in(n, phase).is_enough(n)
    }

    // Whether 2f + 1 have voted in a phase, for whatever bits.
    #[tactic(auto, using(basis::proofs::Counts::count_cong, basis::proofs::Counts::has_or))]
    fn has_quorum(&self, n: u8, phase: VotePhase) -> bool
        ensures { result ≡ nat_le (quorum n) (count n (λ j. voted (tag_of phase) j (meaning_of self.now))) }
    {
        let cast = self.votes_in(phase);
        is_quorum(size_in(cast.zero | (cast.one | cast.both), n), n)
    }

    // The same; where fewer have voted, the admitted bits are not looked at.
    pub fn has_enough_in(&self, n: u8, phase: VotePhase) -> bool
        ensures { result ≡ enough n (meaning_of self.now) (tag_of phase) }
    {
        self.has_quorum(n, phase) && self.has_enough_admitted(n, phase)
    }

    // The union of those votes.
    #[inline(never)]
    pub fn union_in(&self, n: u8, phase: VotePhase) -> Option<BitSet>
        ensures { set_if_any result ≡ union n (meaning_of self.now) (tag_of phase) }
    {
        self.count_in(n, phase).union_of(n)
    }

    // Whether there is no verdict.
    pub fn lacks_verdict(&self) -> bool
        ensures { result ≡ ((meaning_of self.now).verdict == 0) }
    {
        self.verdict.is_none()
    }
}
