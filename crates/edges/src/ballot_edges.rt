// Edges of the opening round: second votes after proposing 1, and first votes after proposing 0, under either supplied
// rule and any coin.
ghost use Rattle.std.specs.Prelude.{◌≡◌, ℕ, ◌<◌, ◌≤◌, true, false, length, map, Some, None};
ghost use Rattle.ballots.specs.States.{ballot_meaning};
ghost use Rattle.phases.specs.Phases.{tag_of};
ghost use Rattle.phases.specs.Records.{meaning_of};
ghost use Rattle.rules.specs.Rounds.{bit_set};
ghost use Rattle.edges.specs.Openings.{state_of, proposed, heard, seen, seen_of};

use ballots::ballot::{Ballot, Event};
use ballots::going::settle_ballot;
use basis::member::Member;
use coins::coin::Coin;
use messages::message::BitSet;
use phases::phased::Phased;
use phases::round::PhasedRound;
use phases::vote_phase::VotePhase;
use rules::cast_vote::CastVote;

// What has come of a ballot: the decided bit, the bit with which round 1 was entered, and which first and second votes of
// round 0 the replica has said.
#[derive(Clone, Copy, PartialEq, Eq, Debug)]
pub struct Standing {
    pub decided: Option<bool>,
    pub entered: Option<bool>,
    pub first_zero: bool,
    pub first_one: bool,
    pub second_zero: bool,
    pub second_one: bool,
}

// Replica 0 of four proposes a bit in ballot 0 and takes its steps.
fn propose<const THIRD: bool, C: Coin>(
    ballot: &mut Ballot,
    rounds: &mut [PhasedRound],
    coin: &mut C,
    bit: bool,
)
    requires { 15 ≤ length rounds.old }
    ensures { state_of ballot.exit.now rounds.new coin.new ≡ proposed THIRD C.acts (bit_set bit) (state_of ballot.entry.now rounds.old coin.old) }
{
    let member = Member { n: 4, own: 0 };
    let _ = ballot.react(member, Event::Proposal(bit));
    settle_ballot::<Phased<THIRD>, C>(ballot, rounds, coin, member, 0, false);
}

// It hears another replica's vote for 1 and takes its steps.
fn hear<const THIRD: bool, C: Coin>(
    ballot: &mut Ballot,
    rounds: &mut [PhasedRound],
    coin: &mut C,
    phase: VotePhase,
    sender: u8,
)
    requires sender { sender < 16 }
    requires rounds { 15 ≤ length rounds.old }
    ensures { state_of ballot.exit.now rounds.new coin.new ≡ heard THIRD C.acts (tag_of phase) sender (state_of ballot.entry.now rounds.old coin.old) }
{
    let member = Member { n: 4, own: 0 };
    let vote = CastVote {
        tag: phase.tag(),
        bits: BitSet::One,
        sender,
    };
    let _ = ballot.opening.hear_vote(vote);
    settle_ballot::<Phased<THIRD>, C>(ballot, rounds, coin, member, 0, false);
}

impl Standing {
    // What stands in the records.
    fn of(ballot: &Ballot, rounds: &[PhasedRound]) -> Standing
        requires { 1 ≤ length rounds.now }
        ensures { seen_of result ≡ seen (ballot_meaning ballot.now) (map meaning_of rounds.now) }
    {
        Standing {
            decided: ballot.decided,
            entered: rounds[0].entered,
            first_zero: ballot
                .opening
                .has_vote_in(VotePhase::First, BitSet::Zero, 0),
            first_one: ballot.opening.has_vote_in(VotePhase::First, BitSet::One, 0),
            second_zero: ballot
                .opening
                .has_vote_in(VotePhase::Second, BitSet::Zero, 0),
            second_one: ballot
                .opening
                .has_vote_in(VotePhase::Second, BitSet::One, 0),
        }
    }
}

// It proposed 1, and hears a second vote 1 of one other: nothing is decided.
pub fn proposed_one_hears_one<const THIRD: bool, C: Coin>(coin: &mut C) -> Standing
    ensures { result ≡ record { decided = None; entered = None; first_zero = false; first_one = true; second_zero = false; second_one = true } }
{
    let mut ballot = Ballot::unopened();
    let mut rounds = [PhasedRound::default(); 15];
    propose::<THIRD, C>(&mut ballot, &mut rounds, coin, true);
    hear::<THIRD, C>(&mut ballot, &mut rounds, coin, VotePhase::Second, 1);
    Standing::of(&ballot, &rounds)
}

// It proposed 1, and hears second votes 1 of two others: it decides 1, and enters round 1 with 1.
pub fn proposed_one_hears_two<const THIRD: bool, C: Coin>(coin: &mut C) -> Standing
    ensures { result ≡ record { decided = Some true; entered = Some true; first_zero = false; first_one = true; second_zero = false; second_one = true } }
{
    let mut ballot = Ballot::unopened();
    let mut rounds = [PhasedRound::default(); 15];
    propose::<THIRD, C>(&mut ballot, &mut rounds, coin, true);
    hear::<THIRD, C>(&mut ballot, &mut rounds, coin, VotePhase::Second, 1);
    hear::<THIRD, C>(&mut ballot, &mut rounds, coin, VotePhase::Second, 2);
    Standing::of(&ballot, &rounds)
}

// It proposed 0, and hears a first vote 1 of one other: it says nothing besides first vote 0, by proposing.
pub fn proposed_zero_hears_one<const THIRD: bool, C: Coin>(coin: &mut C) -> Standing
    ensures { result ≡ record { decided = None; entered = None; first_zero = true; first_one = false; second_zero = false; second_one = false } }
{
    let mut ballot = Ballot::unopened();
    let mut rounds = [PhasedRound::default(); 15];
    propose::<THIRD, C>(&mut ballot, &mut rounds, coin, false);
    hear::<THIRD, C>(&mut ballot, &mut rounds, coin, VotePhase::First, 1);
    Standing::of(&ballot, &rounds)
}

// It proposed 0, and hears first votes 1 of two others: it says first vote 1 and second vote 1.
pub fn proposed_zero_hears_two<const THIRD: bool, C: Coin>(coin: &mut C) -> Standing
    ensures { result ≡ record { decided = None; entered = None; first_zero = true; first_one = true; second_zero = false; second_one = true } }
{
    let mut ballot = Ballot::unopened();
    let mut rounds = [PhasedRound::default(); 15];
    propose::<THIRD, C>(&mut ballot, &mut rounds, coin, false);
    hear::<THIRD, C>(&mut ballot, &mut rounds, coin, VotePhase::First, 1);
    hear::<THIRD, C>(&mut ballot, &mut rounds, coin, VotePhase::First, 2);
    Standing::of(&ballot, &rounds)
}
