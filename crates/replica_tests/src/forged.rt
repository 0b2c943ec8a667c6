// Evenings of seven with share coins, where replica 2 is silent and replica 5 is heard with forged messages only.
use crate::replicas::{Case, FOR_SEVEN, Replica};
use crate::resting::{Player, check_record, rest};
use crate::shares::{OF_SEVEN, share_coin};
use basis::heard::Heard;
use coins::share_coin::ShareCoin;
use sheets::kinds::Takings;
use std::process::Abort;
use std::test::Fail;

type Honest<const THIRD: bool> = [Player<Takings, ShareCoin, THIRD>; 5];

// An honest replica that offers these takings.
fn honest<const THIRD: bool>(
    own: u8,
    cents: i64,
    receipts: u32,
) -> Result<Player<Takings, ShareCoin, THIRD>, Fail> {
    let sheet = Takings::new(cents, receipts)?;
    Replica::offering_in(7, FOR_SEVEN, own, &sheet, share_coin(&OF_SEVEN, own, true)?)
}

fn honest_five<const THIRD: bool>() -> Result<Honest<THIRD>, Fail> {
    Ok([
        honest(0, 1250, 3)?,
        honest(1, -200, 1)?,
        honest(3, 5, 5)?,
        honest(4, 1_000_000_000_000, u32::MAX)?,
        honest(6, -1_000_000_000_000, 0)?,
    ])
}

// The record: the honest five are in. Neither slot 2 nor slot 5 is delivered anywhere, so all propose 0 there.
const RECORD: &[u8] = b"\x40\x00\x04\x01\x07\x00\x5b\
    \x41\x00\x0d\x00\x00\x00\x00\x00\x00\x00\x04\xe2\x00\x00\x00\x03\
    \x41\x00\x0d\x01\xff\xff\xff\xff\xff\xff\xff\x38\x00\x00\x00\x01\
    \x41\x00\x0d\x03\x00\x00\x00\x00\x00\x00\x00\x05\x00\x00\x00\x05\
    \x41\x00\x0d\x04\x00\x00\x00\xe8\xd4\xa5\x10\x00\xff\xff\xff\xff\
    \x41\x00\x0d\x06\xff\xff\xff\x17\x2b\x5a\xf0\x00\x00\x00\x00\x00";

// Messages for slot 5, of a sheet of 1 cent and of one of 2 cents.
const SEND_1: &[u8] = b"\x10\x00\x0d\x05\x00\x00\x00\x00\x00\x00\x00\x01\x00\x00\x00\x01";

const SEND_2: &[u8] = b"\x10\x00\x0d\x05\x00\x00\x00\x00\x00\x00\x00\x02\x00\x00\x00\x01";

const ECHO_1: &[u8] = b"\x11\x00\x0d\x05\x00\x00\x00\x00\x00\x00\x00\x01\x00\x00\x00\x01";

const ECHO_2: &[u8] = b"\x11\x00\x0d\x05\x00\x00\x00\x00\x00\x00\x00\x02\x00\x00\x00\x01";

const READY_1: &[u8] = b"\x12\x00\x0d\x05\x00\x00\x00\x00\x00\x00\x00\x01\x00\x00\x00\x01";

const READY_2: &[u8] = b"\x12\x00\x0d\x05\x00\x00\x00\x00\x00\x00\x00\x02\x00\x00\x00\x01";

// What replicas 0 and 1 hear: with replica 5 they are three that echo 1 cent, of the five that it would take.
const TO_TWO: [Case; 8] = [
    (5, SEND_1, Ok(Heard::New)),
    (5, SEND_2, Err((13, 4))),
    (5, ECHO_1, Ok(Heard::New)),
    (5, ECHO_2, Err((13, 4))),
    (5, READY_1, Ok(Heard::New)),
    (5, READY_2, Err((13, 4))),
    (5, b"\x20\x00\x03\x05\x00\x01", Ok(Heard::New)),
    (5, b"\x21\x00\x03\x05\x00\x01", Ok(Heard::New)),
];

// What replicas 3, 4 and 6 hear: with replica 5 they are four that echo 2 cents.
const TO_THREE: [Case; 8] = [
    (5, SEND_2, Ok(Heard::New)),
    (5, SEND_1, Err((13, 4))),
    (5, ECHO_2, Ok(Heard::New)),
    (5, ECHO_1, Err((13, 4))),
    (5, READY_2, Ok(Heard::New)),
    (5, READY_1, Err((13, 4))),
    (5, b"\x20\x00\x03\x05\x00\x00", Ok(Heard::New)),
    (5, b"\x21\x00\x03\x05\x00\x00", Ok(Heard::New)),
];

// What all hear, of sheets: for the silent replica, another sheet of replica 0, and packets that are none.
const SHEETS: [Case; 8] = [
    (
        5,
        b"\x10\x00\x0d\x02\x00\x00\x00\x00\x00\x00\x00\x01\x00\x00\x00\x01",
        Err((12, 3)),
    ),
    (
        5,
        b"\x11\x00\x0d\x02\x00\x00\x00\x00\x00\x00\x00\x01\x00\x00\x00\x01",
        Ok(Heard::New),
    ),
    (
        5,
        b"\x12\x00\x0d\x02\x00\x00\x00\x00\x00\x00\x00\x01\x00\x00\x00\x01",
        Ok(Heard::New),
    ),
    (
        5,
        b"\x11\x00\x0d\x00\x00\x00\x00\x00\x00\x00\x00\x01\x00\x00\x00\x01",
        Ok(Heard::New),
    ),
    (
        5,
        b"\x12\x00\x0d\x00\x00\x00\x00\x00\x00\x00\x00\x01\x00\x00\x00\x01",
        Ok(Heard::New),
    ),
    (
        5,
        b"\x10\x00\x0d\x05\x00\x00\x00\xe8\xd4\xa5\x10\x01\x00\x00\x00\x01",
        Err((11, 4)),
    ),
    (5, b"", Err((6, 0))),
    (7, SEND_1, Err((5, 0))),
];

// What all hear, of votes and shares: against ballot 0, for ballot 2, and shares that are off the polynomial.
const VOTES: [Case; 20] = [
    (5, b"\x20\x00\x03\x00\x00\x00", Ok(Heard::New)),
    (5, b"\x20\x00\x03\x00\x00\x01", Ok(Heard::New)),
    (5, b"\x21\x00\x03\x00\x00\x00", Ok(Heard::New)),
    (5, b"\x21\x00\x03\x00\x00\x01", Err((13, 5))),
    (5, b"\x20\x00\x03\x02\x00\x01", Ok(Heard::New)),
    (5, b"\x21\x00\x03\x02\x00\x01", Ok(Heard::New)),
    (5, b"\x20\x00\x03\x02\x01\x01", Ok(Heard::New)),
    (5, b"\x21\x00\x03\x02\x01\x01", Ok(Heard::New)),
    (5, b"\x21\x00\x03\x02\x01\x00", Err((13, 5))),
    (5, b"\x21\x00\x03\x02\x01\x02", Err((11, 5))),
    (5, b"\x20\x00\x03\x06\x0f\x00", Ok(Heard::New)),
    (5, b"\x20\x00\x03\x06\x10\x00", Err((10, 4))),
    (5, b"\x20\x00\x03\x07\x00\x01", Err((9, 3))),
    (5, b"\x30\x00\x03\x02\x01\x24", Ok(Heard::New)),
    (5, b"\x30\x00\x03\x02\x01\x25", Err((13, 5))),
    (5, b"\x30\x00\x03\x02\x01\xfb", Err((11, 5))),
    (5, b"\x30\x00\x03\x02\x00\x24", Err((10, 4))),
    (5, b"\x30\x00\x03\x02\x02\x25", Ok(Heard::New)),
    (5, b"\x30\x00\x03\x05\x01\x00", Ok(Heard::New)),
    (5, b"\x23\x00\x03\x02\x01\x01", Err((7, 0))),
];

// Third votes under each rule.
const THIRD_VOTES_OF_TWO: [Case; 1] = [(5, b"\x22\x00\x03\x02\x01\x03", Err((7, 0)))];

const THIRD_VOTES_OF_THREE: [Case; 2] = [
    (5, b"\x22\x00\x03\x02\x01\x03", Ok(Heard::New)),
    (5, b"\x22\x00\x03\x02\x01\x01", Err((13, 5))),
];

// Lets a replica hear forged messages; what was new is known when it is heard again.
fn forge<const THIRD: bool>(
    rt: &impl Abort,
    player: &mut Player<Takings, ShareCoin, THIRD>,
    cases: &[Case],
    again: bool,
) {
    for &(sender, packet, first) in cases {
        let wanted = if again && first == Ok(Heard::New) {
            Ok(Heard::Known)
        } else {
            first
        };
        assert_eq!(rt; player.hear(sender, packet), wanted);
    }
}

// Lets all of them hear all that is meant for them.
fn forge_all<const THIRD: bool>(rt: &impl Abort, hall: &mut Honest<THIRD>, again: bool) {
    for player in hall {
        let own: &[Case] = if player.own < 2 { &TO_TWO } else { &TO_THREE };
        let third_votes: &[Case] = if THIRD {
            &THIRD_VOTES_OF_THREE
        } else {
            &THIRD_VOTES_OF_TWO
        };
        for cases in [own, &SHEETS, &VOTES, third_votes] {
            forge(rt, player, cases, again);
        }
    }
}

// Forged messages before the evening and again after it, or after it only.
fn forged_evening<const THIRD: bool>(rt: &impl Abort, early: bool) -> Result<(), Fail> {
    let mut hall: Honest<THIRD> = honest_five()?;
    if early {
        forge_all(rt, &mut hall, false);
    }
    rest(&mut hall)?;
    forge_all(rt, &mut hall, early);
    rest(&mut hall)?;
    let [zero, one, three, four, six] = hall;
    check_record(rt, zero, RECORD)?;
    check_record(rt, one, RECORD)?;
    check_record(rt, three, RECORD)?;
    check_record(rt, four, RECORD)?;
    check_record(rt, six, RECORD)
}

#[test]
fn two_phases_of_seven(rt: HostRuntime) -> Result<(), Fail> {
    forged_evening::<false>(&rt, true)?;
    forged_evening::<false>(&rt, false)
}

#[test]
fn three_phases_of_seven(rt: HostRuntime) -> Result<(), Fail> {
    forged_evening::<true>(&rt, true)?;
    forged_evening::<true>(&rt, false)
}
