// Whole evenings at four replicas, until nothing that is said is new to anybody, and their closing records.
use crate::replicas::{RECORD_OF_THREE, Replica};
use crate::resting::{Player, check_record, rest};
use crate::shares::{OF_FOUR, share_coin};
use coins::coin::Coin;
use coins::dealt::DealtCoin;
use coins::share_coin::ShareCoin;
use sheets::kinds::{Label, Takings};
use sheets::sheet::Sheet;
use std::process::Abort;
use std::test::Fail;

type Hall<S, C, const THIRD: bool> = [Player<S, C, THIRD>; 4];

// Four replicas that offer takings of 1250, -200, 0 and 5 cents; each has its own coin.
fn takings_hall<C: Coin + Copy, const THIRD: bool>(
    coins: [C; 4],
) -> Result<Hall<Takings, C, THIRD>, Fail> {
    let [zero, one, two, three] = coins;
    Ok([
        Replica::offering(0, &Takings::new(1250, 3)?, zero)?,
        Replica::offering(1, &Takings::new(-200, 1)?, one)?,
        Replica::offering(2, &Takings::new(0, 0)?, two)?,
        Replica::offering(3, &Takings::new(5, 5)?, three)?,
    ])
}

// Four that offer labels, one of them of an empty file.
fn labels_hall<C: Coin + Copy, const THIRD: bool>(
    coins: [C; 4],
) -> Result<Hall<Label, C, THIRD>, Fail> {
    let label = |fingerprint, size| Label { fingerprint, size };
    let [zero, one, two, three] = coins;
    Ok([
        Replica::offering(0, &label([1, 2, 3, 4], 300), zero)?,
        Replica::offering(1, &label([u64::MAX, 0, 1 << 63, 1], u32::MAX), one)?,
        Replica::offering(2, &label([0; 4], 0), two)?,
        Replica::offering(
            3,
            &label([0x0102030405060708, 0x1112131415161718, 9, 10], 65536),
            three,
        )?,
    ])
}

// The record where all four are in.
const RECORD_OF_FOUR: &[u8] = b"\x40\x00\x04\x01\x04\x00\x0f\
    \x41\x00\x0d\x00\x00\x00\x00\x00\x00\x00\x04\xe2\x00\x00\x00\x03\
    \x41\x00\x0d\x01\xff\xff\xff\xff\xff\xff\xff\x38\x00\x00\x00\x01\
    \x41\x00\x0d\x02\x00\x00\x00\x00\x00\x00\x00\x00\x00\x00\x00\x00\
    \x41\x00\x0d\x03\x00\x00\x00\x00\x00\x00\x00\x05\x00\x00\x00\x05";

// The same where they offer labels.
const RECORD_OF_LABELS: &[u8] = b"\x40\x00\x04\x02\x04\x00\x0f\
    \x41\x00\x25\x00\
    \x00\x00\x00\x00\x00\x00\x00\x01\x00\x00\x00\x00\x00\x00\x00\x02\
    \x00\x00\x00\x00\x00\x00\x00\x03\x00\x00\x00\x00\x00\x00\x00\x04\
    \x00\x00\x01\x2c\
    \x41\x00\x25\x01\
    \xff\xff\xff\xff\xff\xff\xff\xff\x00\x00\x00\x00\x00\x00\x00\x00\
    \x80\x00\x00\x00\x00\x00\x00\x00\x00\x00\x00\x00\x00\x00\x00\x01\
    \xff\xff\xff\xff\
    \x41\x00\x25\x02\
    \x00\x00\x00\x00\x00\x00\x00\x00\x00\x00\x00\x00\x00\x00\x00\x00\
    \x00\x00\x00\x00\x00\x00\x00\x00\x00\x00\x00\x00\x00\x00\x00\x00\
    \x00\x00\x00\x00\
    \x41\x00\x25\x03\
    \x01\x02\x03\x04\x05\x06\x07\x08\x11\x12\x13\x14\x15\x16\x17\x18\
    \x00\x00\x00\x00\x00\x00\x00\x09\x00\x00\x00\x00\x00\x00\x00\x0a\
    \x00\x01\x00\x00";

// Three come to rest by themselves, and each gives the record of three.
fn check_three<C: Coin + Copy, const THIRD: bool>(
    rt: &impl Abort,
    mut hall: [Player<Takings, C, THIRD>; 3],
) -> Result<(), Fail> {
    rest(&mut hall)?;
    let [zero, one, two] = hall;
    check_record(rt, zero, RECORD_OF_THREE)?;
    check_record(rt, one, RECORD_OF_THREE)?;
    check_record(rt, two, RECORD_OF_THREE)
}

// All four come to rest, and each gives this record.
fn check_four<S: Sheet, C: Coin + Copy, const THIRD: bool>(
    rt: &impl Abort,
    mut hall: Hall<S, C, THIRD>,
    record: &[u8],
) -> Result<(), Fail> {
    rest(&mut hall)?;
    let [zero, one, two, three] = hall;
    check_record(rt, zero, record)?;
    check_record(rt, one, record)?;
    check_record(rt, two, record)?;
    check_record(rt, three, record)
}

// Slot 3 is delivered nowhere, and the coin's bit 0 decides ballot 3 with 0.
#[test]
fn three_of_four_leave_one_out(rt: HostRuntime) -> Result<(), Fail> {
    let coins = [DealtCoin::same(0); 4];
    let [zero, one, two, _] = takings_hall(coins)?;
    check_three::<DealtCoin, false>(&rt, [zero, one, two])?;
    let [zero, one, two, _] = takings_hall(coins)?;
    check_three::<DealtCoin, true>(&rt, [zero, one, two])
}

// In round 1 the coin shows 1, which decides ballot 3 with 1.
#[test]
fn all_four_are_in(rt: HostRuntime) -> Result<(), Fail> {
    let coins = [DealtCoin::same(2); 4];
    check_four::<Takings, DealtCoin, false>(&rt, takings_hall(coins)?, RECORD_OF_FOUR)?;
    check_four::<Takings, DealtCoin, true>(&rt, takings_hall(coins)?, RECORD_OF_FOUR)
}

// The coins of the four; they show 1 where ballot and round add up to an odd number, or to an even one.
fn share_coins(odd: bool) -> Result<[ShareCoin; 4], Fail> {
    Ok([
        share_coin(&OF_FOUR, 0, odd)?,
        share_coin(&OF_FOUR, 1, odd)?,
        share_coin(&OF_FOUR, 2, odd)?,
        share_coin(&OF_FOUR, 3, odd)?,
    ])
}

// The shares of three show 1 for ballot 3 in round 1 and 0 in round 2, which decides it with 0.
#[test]
fn three_with_share_coins(rt: HostRuntime) -> Result<(), Fail> {
    let coins = share_coins(false)?;
    let [zero, one, two, _] = takings_hall(coins)?;
    check_three::<ShareCoin, false>(&rt, [zero, one, two])?;
    let [zero, one, two, _] = takings_hall(coins)?;
    check_three::<ShareCoin, true>(&rt, [zero, one, two])
}

// For ballot 3 they show 0 in round 1 and 1 in round 2, which decides it with 1.
#[test]
fn four_with_share_coins(rt: HostRuntime) -> Result<(), Fail> {
    let coins = share_coins(true)?;
    check_four::<Takings, ShareCoin, false>(&rt, takings_hall(coins)?, RECORD_OF_FOUR)?;
    check_four::<Takings, ShareCoin, true>(&rt, takings_hall(coins)?, RECORD_OF_FOUR)
}

#[test]
fn four_offer_labels(rt: HostRuntime) -> Result<(), Fail> {
    let coins = share_coins(true)?;
    check_four::<Label, ShareCoin, false>(&rt, labels_hall(coins)?, RECORD_OF_LABELS)?;
    let coins = [DealtCoin::same(2); 4];
    check_four::<Label, DealtCoin, true>(&rt, labels_hall(coins)?, RECORD_OF_LABELS)
}
