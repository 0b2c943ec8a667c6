// Saying the own share of a round that has its verdict.
ghost use Rattle.std.specs.Prelude.{◌≡◌, ℕ, suc, ◌<◌, ◌≤◌, cond, ◌&&◌, is_some, None};
ghost use Rattle.rules.specs.Rounds.{set_if_any};
ghost use Rattle.ballots.specs.States.{stage_of};
ghost use Rattle.ballots.specs.Ballots.{due_by, share_due, said_share, next_coin};

use crate::ballot::Stage;
use crate::later_round::LaterRound;
use basis::member::Member;
use coins::coin::Coin;
use coins::share::Share;
use messages::message::BitSet;
use messages::read::LARGEST_SHARE;

// The own share where none is taken and it is lawful.
fn due_share(taken: Option<u8>, own: Option<u8>) -> Option<u8>
    ensures value { result ≡ due_by taken own }
{
    own.filter(|value| taken.is_none() && *value <= LARGEST_SHARE)
}

// The own share that is still to be said in a later round.
pub fn share_to_say<C: Coin>(coin: &C, member: Member, at: LaterRound) -> Option<u8>
    ensures { result ≡ share_due C.acts member.own at.slot at.later coin.now }
{
    if !C::uses_shares() {
        return None;
    }
    due_share(
        coin.share_of(at.tossed_round(), member.own),
        coin.own_share(at.tossed_round()),
    )
}

// Says it, where the round is entered and has its verdict: the coin takes it under the own number.
pub fn say_share<C: Coin>(
    coin: &mut C,
    stage: Stage,
    verdict: Option<BitSet>,
    member: Member,
    at: LaterRound,
)
    ensures { coin.new ≡ next_coin C.acts member.own at.slot at.later (stage_of stage) (set_if_any verdict) coin.old }
{
    if !stage.has_entered(at.later) || verdict.is_none() {
        return;
    }
    if let Some(value) = share_to_say(coin, member, at) {
        let _ = coin.take(Share {
            ballot: at.slot,
            round: at.round(),
            sender: member.own,
            value,
        });
    }
}
