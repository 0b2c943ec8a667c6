// A round under one of the two supplied rules.
ghost use Rattle.std.specs.Prelude.{◌≡◌};
ghost use Rattle.rules.specs.Rounds.{cleared};
ghost use Rattle.phases.specs.Records.{meaning_of};

use crate::votes::Votes;
use messages::message::BitSet;

// The entered bit, the votes of each phase, the verdict. The two-phase rule has no third votes.
#[derive(Clone, Copy, PartialEq, Eq, Default, Debug)]
pub struct PhasedRound {
    pub entered: Option<bool>,
    pub first: Votes,
    pub second: Votes,
    pub third: Votes,
    pub verdict: Option<BitSet>,
}

impl PhasedRound {
    // A round that was neither entered nor voted in.
    #[tactic(auto, using(crate::proofs::Masks::default_cleared))]
    pub fn empty() -> PhasedRound
        ensures { meaning_of result ≡ cleared }
    {
        PhasedRound::default()
    }
}
