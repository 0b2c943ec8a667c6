// A toss with f wrong shares in the worst place: the lower half of the hall has not f + 1 right ones, and those of the
// upper half are its highest, so that the right choice is the last one.
ghost use Rattle.std.specs.Prelude.{◌≡◌, ◌<◌, ◌≤◌, IfOk};
ghost use Rattle.coin_bench.specs.Scenes.{right_value, error_of, dealt_value, taken_between};

use basis::hall::fault_limit;
use basis::refusal::Refusal;
use coins::coin::Coin;
use coins::share::Share;
use coins::share_coin::{ShareCoin, TOSSES};
use coins::tossed_round::TossedRound;

// A hall of n, and the coin of its highest replica.
#[derive(Drop)]
pub struct Scene {
    pub n: u8,
    pub coin: ShareCoin,
    ghost sized: { (2 ≤ n) × (n ≤ 16) },
}

impl Scene {
    // The coin has its right share in every toss.
    pub fn new(n: u8) -> Result<Scene, Refusal>
        requires { (2 ≤ n) × (n ≤ 16) }
        ensures { IfOk result (λ s. s.n ≡ n) }
    {
        let own = n - 1;
        let coin = ShareCoin::new(n, own, &[value_of(n, own); TOSSES])?;
        Ok(Scene { n, coin })
    }
}

// The value at z of the polynomial that is dealt, (z + 7) to the f.
fn right_value_at(f: u8, z: u8) -> u8
    requires { z ≤ 16 }
    ensures { result ≡ right_value f z }
{
    // `fold` over the range was tried, and its proof did not close; `pow` would ask that f is at most 5
    let mut v: u32 = 1;
    for _ in 0..f {
        v = v * (u32::from(z) + 7) % 251;
    }
    v as u8
}

// How far replica j's share is off: one too much at f replicas, the lowest of each half.
fn error_at(n: u8, j: u8) -> u32
    ensures { result ≡ error_of n j }
{
    let f = fault_limit(n);
    let middle = n / 2;
    u32::from(j < middle - f || j >= middle && j < 2 * f)
}

// Replica j's share.
pub fn value_of(n: u8, j: u8) -> u8
    requires { j < 16 }
    ensures { result ≡ dealt_value n j }
{
    ((u32::from(right_value_at(fault_limit(n), j + 1)) + error_at(n, j)) % 251) as u8
}

// Takes the shares of the replicas from one to below another, for a round.
pub fn take_from_to(coin: &mut ShareCoin, n: u8, from: u8, to: u8, at: TossedRound)
    requires { (from ≤ to) × (to ≤ 16) }
    ensures { coin.new ≡ taken_between n at.ballot at.round from to coin.old }
{
    for sender in from..to {
        let value = value_of(n, sender);
        let _ = coin.take(Share {
            ballot: at.ballot,
            round: at.round,
            sender,
            value,
        });
    }
}
