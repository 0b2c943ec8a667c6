// Edges of the share coin: four shares of which one is wrong, and three of these.
ghost use Rattle.std.specs.Prelude.{◌≡◌, ◌<◌, ◌≤◌, true, Ok, Some, None, IfOk};
ghost use Rattle.coins.specs.Coins.{take_after};
ghost use Rattle.coins.specs.Shared.{share_acts, coin_told};
ghost use Rattle.edges.specs.Tosses.{sent_share, HasTaken, nothing};

use basis::refusal::Refusal;
use coins::coin::Coin;
use coins::share::Share;
use coins::share_coin::{ShareCoin, TOSSES};
use coins::tossed_round::TossedRound;

// The coin of replica 0 of four, whose own share is 3.
fn new_coin() -> Result<ShareCoin, Refusal>
    ensures answer { coin_told result ≡ Ok (record { n = 4; own = 0 }) }
    ensures coin { IfOk result (HasTaken nothing) }
{
    ShareCoin::new(4, 0, &[3; TOSSES])
}

// Takes another replica's share.
fn take_share(coin: &mut ShareCoin, sender: u8, value: u8)
    requires sender { sender < 16 }
    requires value { value ≤ 250 }
    ensures { coin.new ≡ take_after share_acts coin.old (sent_share sender value) }
{
    let _ = coin.take(Share {
        ballot: 0,
        round: 1,
        sender,
        value,
    });
}

// What the coin shows for ballot 0 and round 1.
fn first_bit(coin: &ShareCoin) -> Option<bool>
    ensures { result ≡ share_acts.shown coin.now 0 1 }
{
    coin.bit(TossedRound {
        ballot: 0,
        round: 1,
    })
}

// Shares 3, 6, 7 and 9 of replicas 0 to 3 show 1: 1 + 2z meets all but replica 1's at z = 1 to 4.
pub fn one_wrong_of_four() -> Result<Option<bool>, Refusal>
    ensures { result ≡ Ok (Some true) }
{
    let mut coin = new_coin()?;
    take_share(&mut coin, 1, 6);
    take_share(&mut coin, 2, 7);
    take_share(&mut coin, 3, 9);
    Ok(first_bit(&coin))
}

// Shares 3, 6 and 7 show nothing.
pub fn one_wrong_of_three() -> Result<Option<bool>, Refusal>
    ensures { result ≡ Ok None }
{
    let mut coin = new_coin()?;
    take_share(&mut coin, 1, 6);
    take_share(&mut coin, 2, 7);
    Ok(first_bit(&coin))
}
