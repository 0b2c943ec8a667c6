// The votes of one phase of a round.
ghost use Rattle.std.specs.Prelude.{◌≡◌, ℕ, ◌<◌};
ghost use Rattle.messages.specs.Tags.{bits_number};
ghost use Rattle.phases.specs.Records.{no_votes, for_set, with_vote};

use basis::replicas::{ReplicaSet, with};
use messages::message::BitSet;

// Who voted for {0}, who for {1}, and who for both bits.
#[derive(Clone, Copy, PartialEq, Eq, Default, Debug)]
pub struct Votes {
    pub zero: ReplicaSet,
    pub one: ReplicaSet,
    pub both: ReplicaSet,
}

impl Votes {
    // No votes.
    pub fn none() -> Votes
        ensures { result ≡ no_votes }
    {
        Votes::default()
    }

    // Who voted for exactly this set.
    pub fn cast_for(self, bits: BitSet) -> ReplicaSet
        ensures { result ≡ for_set self (bits_number bits) }
    {
        match bits {
            BitSet::Zero => self.zero,
            BitSet::One => self.one,
            BitSet::Both => self.both,
        }
    }

    // One vote more. A sender below 16 is one short clause, and not a type, as at coins.
    pub fn add(&mut self, bits: BitSet, sender: u8)
        requires { sender < 16 }
        ensures { self.new ≡ with_vote self.old (bits_number bits) sender }
    {
        match bits {
            BitSet::Zero => self.zero = with(self.zero, sender),
            BitSet::One => self.one = with(self.one, sender),
            BitSet::Both => self.both = with(self.both, sender),
        }
    }
}
