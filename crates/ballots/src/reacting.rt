// How a ballot's record changes, by its state and the event.
ghost use Rattle.std.specs.Prelude.{◌≡◌, ℕ, suc, ◌==◌};
ghost use Rattle.basis.specs.Steps.{taking};
ghost use Rattle.messages.specs.Tags.{bits_number};
ghost use Rattle.rules.specs.Rounds.{bit_set, bit_if_any};
ghost use Rattle.ballots.specs.States.{stage_of, Plain, ballot_meaning, unopened};
ghost use Rattle.ballots.specs.Ballots.{next_bit, decision, with_opening, reacted, enters_with};
ghost use Rattle.ballots.specs.Listed.{repropose};

use crate::ballot::{Ballot, Event, Stage};
use basis::member::Member;
use messages::message::BitSet;
use openings::proposing::{propose, propose_again};
use openings::steps::take_opening_steps;
use phases::round::PhasedRound;

// The bit with which a ballot goes on: the one bit of the verdict, or the coin's. Nothing shorter says the three cases.
pub fn bit_to_enter(verdict: BitSet, coin: bool) -> bool
    ensures { bit_set result ≡ next_bit (bits_number verdict) (bit_set coin) }
{
    match verdict {
        BitSet::Zero => false,
        BitSet::One => true,
        BitSet::Both => coin,
    }
}

// What is decided after a verdict and the coin's bit.
pub fn decide(decided: Option<bool>, verdict: BitSet, coin: bool) -> Option<bool>
    ensures { bit_if_any result ≡ decision (bit_if_any decided) (bits_number verdict) (bit_set coin) }
{
    if verdict == BitSet::from(coin) {
        decided.or(Some(coin))
    } else {
        decided
    }
}

impl Ballot {
    // A ballot that nobody proposed in.
    #[tactic(auto, using(phases::proofs::Masks::default_cleared))]
    pub fn unopened() -> Ballot
        ensures { ballot_meaning result ≡ unopened }
    {
        Ballot {
            opening: PhasedRound::default(),
            stage: Stage::InRound(0),
            decided: None,
        }
    }

    // Proposes 1 again where the slot is delivered: the first vote 1 is said, unless it is.
    pub fn repropose(&mut self, member: Member, delivered: bool)
        ensures { ballot_meaning self.new ≡ with_opening (taking (repropose member.own delivered) (ballot_meaning self.old).opening) (ballot_meaning self.old) }
    {
        if delivered {
            propose_again(&mut self.opening, member);
        }
    }

    // Reacts to an event. The answer is the bit with which the next round is entered, if one is. A finished ballot is written
    // as such, not as in a round 16.
    pub fn react(&mut self, member: Member, event: Event) -> Option<bool>
        ensures left { ballot_meaning self.new ≡ reacted member.n member.own event (ballot_meaning self.old) }
        ensures answer { bit_if_any result ≡ enters_with event (stage_of self.old.stage) }
        ensures plain { Plain self.old.stage → Plain self.new.stage }
    {
        match (self.stage, event) {
            (_, Event::Proposal(bit)) => {
                propose(&mut self.opening, member, bit);
                None
            }
            (_, Event::Vote) => {
                take_opening_steps(&mut self.opening, member);
                None
            }
            (Stage::InRound(round), Event::Verdict(bits, coin)) if round < 15 => {
                self.decided = decide(self.decided, bits, coin);
                self.stage = Stage::InRound(round + 1);
                Some(bit_to_enter(bits, coin))
            }
            (Stage::InRound(15), Event::Verdict(bits, coin)) => {
                self.decided = decide(self.decided, bits, coin);
                self.stage = Stage::Finished;
                None
            }
            (_, Event::Verdict(..)) => None,
        }
    }
}
