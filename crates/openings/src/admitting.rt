// What the opening round admits, and the second votes that count.
// Functions, since the record is of another crate: a type around it would only add a field to each clause.
ghost use Rattle.std.specs.Prelude.{◌≡◌, ℕ, cond, ◌&&◌, ◌||◌, ◌==◌};
ghost use Rattle.basis.specs.Counts.{has, count};
ghost use Rattle.basis.specs.Halls.{quorum};
ghost use Rattle.messages.specs.Tags.{bits_number};
ghost use Rattle.phases.specs.Records.{meaning_of};
ghost use Rattle.openings.specs.Openings.{admits, supports, ready_to_leave, tally};

use basis::replicas::{ReplicaSet, has_honest, is_quorum, size_in};
use messages::message::BitSet;
use phases::counting::{Counted, where_set};
use phases::round::PhasedRound;

// Whether the replica proposed 1.
pub fn has_proposed_one(round: &PhasedRound) -> bool
    ensures { result ≡ ((meaning_of round.now).entered == 2) }
{
    round.entered == Some(true)
}

// Whether 1 is admitted. Not by 2f + 1 first votes, as 0 and both bits of a later round: the proposal or f + 1 suffice.
#[tactic(auto, unfolding(crate::specs::Openings::admits))]
pub fn admits_one(round: &PhasedRound, n: u8) -> bool
    ensures { result ≡ admits n (meaning_of round.now) 2 }
{
    has_proposed_one(round) | has_honest(size_in(round.first.one, n), n)
}

// The second votes for admitted bits. Not `count_in` of a later round, which admits otherwise and counts votes for both.
#[tactic(auto, using(phases::proofs::Masks::where_has), unfolding(crate::specs::Openings::admits, phases::specs::Steps::admitted))]
pub fn supporters(round: &PhasedRound, n: u8) -> Counted
    ensures zero { (j : ℕ) → has result.zero j ≡ supports n (meaning_of round.now) 1 j }
    ensures one { (j : ℕ) → has result.one j ≡ supports n (meaning_of round.now) 2 j }
{
    Counted {
        zero: where_set(round.admits(n, false), round.second.zero),
        one: where_set(admits_one(round, n), round.second.one),
    }
}

// Whether 2f + 1 senders have one.
#[tactic(auto, using(basis::proofs::Counts::count_cong), unfolding(crate::specs::Openings::ready_to_leave))]
pub fn may_leave_by(round: &PhasedRound, n: u8) -> bool
    ensures { result ≡ ready_to_leave n (meaning_of round.now) }
{
    supporters(round, n).is_enough(n)
}

// The bit that 2f + 1 support, or both.
#[tactic(auto, using(basis::proofs::Counts::count_cong), unfolding(crate::specs::Openings::tally))]
pub fn tally_of(round: &PhasedRound, n: u8) -> BitSet
    ensures { bits_number result ≡ tally n (meaning_of round.now) }
{
    let counted = supporters(round, n);
    if is_quorum(size_in(counted.zero, n), n) {
        BitSet::Zero
    } else if is_quorum(size_in(counted.one, n), n) {
        BitSet::One
    } else {
        BitSet::Both
    }
}
