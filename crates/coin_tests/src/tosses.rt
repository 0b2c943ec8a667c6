// What the leader's coin shows and answers.
ghost use Rattle.std.specs.Prelude.{◌<◌, ◌≤◌};
ghost use Rattle.coins.specs.Coins.{Lawful};

use crate::leader_coin::LeaderCoin;
use basis::heard::Heard;
use basis::refusal::Reason;
use coins::coin::Coin;
use coins::share::Share;
use coins::tossed_round::TossedRound;

// A share for ballot 3 and round 2.
fn share(sender: u8, value: u8) -> Share
    requires sender { sender < 16 }
    requires value { value ≤ 250 }
    ensures { Lawful result }
{
    Share {
        ballot: 3,
        round: 2,
        sender,
        value,
    }
}

#[test]
fn the_leader_deals(rt: HostRuntime) {
    let mut coin = LeaderCoin::new(252);
    let here = TossedRound {
        ballot: 3,
        round: 2,
    };
    let elsewhere = TossedRound {
        ballot: 2,
        round: 3,
    };
    assert_eq!(rt; coin.own_share(here), Some(1));
    assert_eq!(rt; coin.take(share(1, 8)), Ok(Heard::New));
    assert_eq!(rt; coin.bit(here), None);
    assert_eq!(rt; coin.take(share(0, 7)), Ok(Heard::New));
    assert_eq!(rt; coin.bit(here), Some(true));
    assert_eq!(rt; coin.bit(elsewhere), None);
    assert_eq!(rt; coin.take(share(0, 7)), Ok(Heard::Known));
    assert_eq!(rt; coin.take(share(0, 6)), Err(Reason::Contradiction));
    assert_eq!(rt; coin.share_of(here, 1), Some(8));
}
