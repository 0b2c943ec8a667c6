// What an evening deals by its seed: coins and sheets.
use crate::draws::mixed;
use basis::hall::fault_limit;
use basis::refusal::Refusal;
use coins::coin::Coin;
use coins::dealt::DealtCoin;
use coins::share_coin::{ShareCoin, TOSSES};
use sheets::kinds::{Label, Takings};
use sheets::sheet::Sheet;

// A coin that can be dealt.
pub trait Deal: Coin + Copy {
    // The coin of a replica.
    fn deal(n: u8, own: u8, seed: u64) -> Result<Self, Refusal>;
}

// A kind of which sheets can be dealt.
pub trait Draft: Sheet {
    // The sheet of a slot, in one of several versions.
    fn draft(seed: u64, slot: u8, version: u8) -> Self;
}

// A number that hangs on a seed and on two numbers.
fn dealt(seed: u64, of: u64, at: u64) -> u64 {
    mixed(mixed(mixed(seed).wrapping_add(of)).wrapping_add(at))
}

impl Deal for DealtCoin {
    // All numbers are zeros, or ones, or any.
    fn deal(_n: u8, _own: u8, seed: u64) -> Result<DealtCoin, Refusal> {
        let mut numbers = [0u16; 16];
        for (ballot, number) in numbers.iter_mut().enumerate() {
            *number = match dealt(seed, 0, 0) % 8 {
                0 => 0,
                1 => u16::MAX,
                _ => (dealt(seed, 1, ballot as u64) % 65536) as u16,
            };
        }
        Ok(DealtCoin::new(numbers))
    }
}

// The share of a replica for a toss: the value at one more than its number of a polynomial of degree f modulo 251.
pub fn share_value(n: u8, own: u8, seed: u64, toss: u64) -> u8 {
    let point = u64::from(own) + 1;
    let mut value = 0u64;
    for power in 0..=fault_limit(n) {
        let coefficient = dealt(seed, toss.wrapping_add(2), u64::from(power)) % 251;
        value = value.wrapping_mul(point).wrapping_add(coefficient) % 251;
    }
    (value % 251) as u8
}

impl Deal for ShareCoin {
    fn deal(n: u8, own: u8, seed: u64) -> Result<ShareCoin, Refusal> {
        let mut shares = [0u8; TOSSES];
        for (toss, share) in shares.iter_mut().enumerate() {
            *share = share_value(n, own, seed, toss as u64);
        }
        ShareCoin::new(n, own, &shares)
    }
}

impl Draft for Takings {
    fn draft(seed: u64, slot: u8, version: u8) -> Takings {
        let number = dealt(seed, u64::from(slot) + 1000, u64::from(version));
        Takings {
            cents: (number % 100_000_000) as i64,
            receipts: (number >> 40) as u32,
        }
    }
}

impl Draft for Label {
    fn draft(seed: u64, slot: u8, version: u8) -> Label {
        let number = dealt(seed, u64::from(slot) + 1000, u64::from(version));
        Label {
            fingerprint: [number, mixed(number), seed, mixed(seed)],
            size: (number >> 40) as u32,
        }
    }
}
