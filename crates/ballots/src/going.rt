// Going on from a round, and settling all rounds of a ballot.
ghost use Rattle.std.specs.Prelude.{◌≡◌, ℕ, suc, ◌+◌, ◌-◌, ◌*◌, ◌<◌, ◌≤◌, map, length};
ghost use Rattle.rules.specs.Rounds.{cleared, bit_if_any, set_if_any};
ghost use Rattle.ballots.specs.States.{place, ballot_meaning};
ghost use Rattle.ballots.specs.Ballots.{gone_ballot, gone_rounds, opened_ballot, opened_rounds, verdict_at, round_stepped, round_settled, later_settled};
ghost use Rattle.ballots.specs.Listed.{ballot_taken, ListedOrder};

use crate::ballot::{Ballot, Event};
use crate::later_round::LaterRound;
use crate::rounds::{LATER, row_of, take_rule_steps};
use crate::shares::say_share;
use basis::member::Member;
use coins::coin::Coin;
use messages::message::BitSet;
use rules::rule::Rule;

// Goes on from a round that the ballot is in, by its verdict and a coin's bit. The whole table is lent with the slot whose
// fifteen rows it holds: rows are placed by slot in what is promised, and a part would have each promise twice.
pub fn go_on<R: Rule>(
    ballot: &mut Ballot,
    rounds: &mut [R::Record],
    member: Member,
    slot: u8,
    round: u8,
    verdict: Option<BitSet>,
    shown: Option<bool>,
)
    requires { (round < 16) × (15 * slot + 15 ≤ length rounds.old) }
    ensures ballot { ballot_meaning ballot.new ≡ gone_ballot round (set_if_any verdict) (bit_if_any shown) (ballot_meaning ballot.old) }
    ensures rounds { map R.meaning rounds.new ≡ gone_rounds R.acts member.n member.own slot round (set_if_any verdict) (bit_if_any shown) (ballot_meaning ballot.old) (map R.meaning rounds.old) }
{
    if !ballot.stage.is_round(round) {
        return;
    }
    if let (Some(bits), Some(coin)) = (verdict, shown) {
        if let Some(bit) = ballot.react(member, Event::Verdict(bits, coin)) {
            R::enter(&mut rounds[row_of(slot, round)], member, bit);
        }
    }
}

// The rule takes its steps in a later round that is entered, and the share is said. The answer is the round's verdict.
// Inlined, since most of a call's rounds are gone on from and cost little more than the call itself.
#[inline(always)]
pub fn step_round<R: Rule, C: Coin>(
    ballot: &Ballot,
    rounds: &mut [R::Record],
    coin: &mut C,
    member: Member,
    at: LaterRound,
) -> Option<BitSet>
    requires { 15 * at.slot + 15 ≤ length rounds.old }
    ensures state { record { ballot = ballot_meaning ballot.now; rounds = map R.Rule.meaning rounds.new; coin = coin.new } ≡ round_stepped R.Rule.acts C.Coin.acts member.n member.own at.slot at.later (record { ballot = ballot_meaning ballot.now; rounds = map R.Rule.meaning rounds.old; coin = coin.old }) }
    ensures verdict { set_if_any result ≡ verdict_at R.Rule.acts C.Coin.acts member.n member.own at.slot (suc at.later) (record { ballot = ballot_meaning ballot.now; rounds = map R.Rule.meaning rounds.new; coin = coin.new }) }
{
    let stage = ballot.stage;
    let row = &mut rounds[row_of(at.slot, at.later)];
    take_rule_steps::<R>(row, stage, member, at.later);
    let verdict = R::verdict(row);
    say_share(coin, stage, verdict, member, at);
    verdict
}

// A later round: the rule takes its steps, the share is said, and the ballot goes on, where it is in that round.
pub fn settle_round<R: Rule, C: Coin>(
    ballot: &mut Ballot,
    rounds: &mut [R::Record],
    coin: &mut C,
    member: Member,
    at: LaterRound,
)
    requires { 15 * at.slot + 15 ≤ length rounds.old }
    ensures { record { ballot = ballot_meaning ballot.exit.now; rounds = map R.Rule.meaning rounds.new; coin = coin.new } ≡ round_settled R.Rule.acts C.Coin.acts member.n member.own at.slot at.later (record { ballot = ballot_meaning ballot.entry.now; rounds = map R.Rule.meaning rounds.old; coin = coin.old }) }
{
    let verdict = step_round::<R, C>(ballot, rounds, coin, member, at);
    if ballot.stage.is_round(at.round()) {
        let shown = coin.bit(at.tossed_round());
        go_on::<R>(ballot, rounds, member, at.slot, at.round(), verdict, shown);
    }
}

// The later rounds that the ballot has gone on from, the lowest first. The answer is how many they are.
pub fn settle_passed<R: Rule, C: Coin>(
    ballot: &Ballot,
    rounds: &mut [R::Record],
    coin: &mut C,
    member: Member,
    slot: u8,
) -> u8
    requires { (slot < 16) × (15 * slot + 15 ≤ length rounds.old) }
    ensures low { result ≤ 15 }
    ensures left { later_settled R.Rule.acts C.Coin.acts member.n member.own slot (15 - result) result (record { ballot = ballot_meaning ballot.now; rounds = map R.Rule.meaning rounds.new; coin = coin.new }) ≡ later_settled R.Rule.acts C.Coin.acts member.n member.own slot 15 0 (record { ballot = ballot_meaning ballot.now; rounds = map R.Rule.meaning rounds.old; coin = coin.old }) }
{
    let passed = ballot.stage.passed();
    for later in 0..passed {
        step_round::<R, C>(ballot, rounds, coin, member, LaterRound { slot, later });
    }
    passed
}

// The opening round takes its steps and is gone on from, as if a coin showed 1.
pub fn settle_opening<R: Rule>(
    ballot: &mut Ballot,
    rounds: &mut [R::Record],
    member: Member,
    slot: u8,
)
    requires { 15 * slot + 15 ≤ length rounds.old }
    ensures ballot { ballot_meaning ballot.new ≡ opened_ballot R.acts member.n member.own slot (ballot_meaning ballot.old) }
    ensures rounds { map R.meaning rounds.new ≡ opened_rounds R.acts member.n member.own slot (ballot_meaning ballot.old) (map R.meaning rounds.old) }
{
    let _ = ballot.react(member, Event::Vote);
    let verdict = ballot.opening.verdict;
    go_on::<R>(ballot, rounds, member, slot, 0, verdict, Some(true));
}

// The steps of a ballot, all that apply: proposing again where the slot is delivered, the opening round, and the later
// rounds, the lowest first. That is another order than the listed one, and comes to the same.
pub fn settle_ballot<R: Rule, C: Coin>(
    ballot: &mut Ballot,
    rounds: &mut [R::Record],
    coin: &mut C,
    member: Member,
    slot: u8,
    delivered: bool,
)
    requires { (slot < 16) × (15 * slot + 15 ≤ length rounds.old) }
    ensures taken { record { ballot = ballot_meaning ballot.exit.now; rounds = map R.Rule.meaning rounds.new; coin = coin.new } ≡ ballot_taken R.Rule.acts C.Coin.acts member.n member.own slot delivered (record { ballot = ballot_meaning ballot.entry.now; rounds = map R.Rule.meaning rounds.old; coin = coin.old }) }
    ensures order { ListedOrder R.Rule.acts C.Coin.acts }
{
    ballot.repropose(member, delivered);
    settle_opening::<R>(ballot, rounds, member, slot);
    let passed = settle_passed::<R, C>(ballot, rounds, coin, member, slot);
    for later in passed..LATER {
        if !ballot.stage.has_entered(later) {
            return;
        }
        settle_round::<R, C>(ballot, rounds, coin, member, LaterRound { slot, later });
    }
}
