// Shares over the calls: what hearing them answers, when the own one is said, and when a ballot goes on by them.
use crate::replicas::{Case, Replica, ThreePhased, Turn, TwoPhased, proposed};
use basis::heard::Heard;
use coins::dealt::DealtCoin;
use coins::share_coin::{ShareCoin, TOSSES};
use replica::states::Running;
use sheets::kinds::Takings;
use std::process::Abort;
use std::test::Fail;

// A hall size, and the shares of its replicas where the coin shows 0 and where it shows 1.
pub struct Dealt {
    n: u8,
    zero: [u8; 7],
    one: [u8; 7],
}

// 4 + 3z and 1 + 2z at 1 to 4.
pub const OF_FOUR: Dealt = Dealt {
    n: 4,
    zero: [7, 10, 13, 16, 0, 0, 0],
    one: [3, 5, 7, 9, 0, 0, 0],
};

// 250 + z + z * z and 1 + z * z at 1 to 7, modulo 251.
pub const OF_SEVEN: Dealt = Dealt {
    n: 7,
    zero: [1, 5, 11, 19, 29, 41, 55],
    one: [2, 5, 10, 17, 26, 37, 50],
};

// A replica's coin, which shows 1 where ballot and round add up to an odd number, or to an even one.
pub fn share_coin(dealt: &Dealt, own: u8, odd: bool) -> Result<ShareCoin, Fail> {
    let place = usize::from(own % 7);
    let mut shares = [0u8; TOSSES];
    for (toss, share) in shares.iter_mut().enumerate() {
        let (ballot, round) = (toss / 15, toss % 15 + 1);
        let one = ((ballot + round) % 2 == 1) == odd;
        *share = if one {
            dealt.one[place]
        } else {
            dealt.zero[place]
        };
    }
    Ok(ShareCoin::new(dealt.n, own, &shares)?)
}

type Sharing<const THIRD: bool> = Replica<Running, Takings, ShareCoin, THIRD>;

// Replica 0 of four that has proposed. Its shares are 1, 2 and so on, ballot by ballot and round by round: in ballot 3
// it has 46 for round 1 and 47 for round 2.
fn sharing<const THIRD: bool>() -> Result<Sharing<THIRD>, Fail> {
    let mut shares = [0u8; TOSSES];
    for (toss, share) in (1..).zip(shares.iter_mut()) {
        *share = toss;
    }
    proposed(ShareCoin::new(4, 0, &shares)?)
}

// Of round 1 in ballot 3: votes for 0, and the position of the own share.
const FIRST: &[u8] = b"\x20\x00\x03\x03\x01\x00";

const SECOND: &[u8] = b"\x21\x00\x03\x03\x01\x00";

const THIRD_VOTE: &[u8] = b"\x22\x00\x03\x03\x01\x01";

const OWN: u32 = 0x30312e;

// The own share as it is said.
const SAID: &[u8] = b"\x30\x00\x03\x03\x01\x2e";

// Ballot 3 enters round 1 with 0.
const OPENED: [Turn; 4] = [
    (1, b"\x20\x00\x03\x03\x00\x00", OWN, false),
    (2, b"\x20\x00\x03\x03\x00\x00", OWN, false),
    (1, b"\x21\x00\x03\x03\x00\x00", OWN, false),
    (2, b"\x21\x00\x03\x03\x00\x00", OWN, false),
];

// What hearing shares answers, by the own shares above.
const HEARD: [Case; 19] = [
    (1, b"\x30\x00\x03\x00\x01\x07", Ok(Heard::New)),
    (1, b"\x30\x00\x03\x00\x01\x07", Ok(Heard::Known)),
    (1, b"\x30\x00\x03\x00\x01\x08", Err((13, 5))),
    (1, b"\x30\x00\x03\x00\x01\xfa", Err((13, 5))),
    (1, b"\x30\x00\x03\x00\x01\x00", Err((13, 5))),
    (1, b"\x30\x00\x03\x00\x01\xfb", Err((11, 5))),
    (1, b"\x30\x00\x03\x00\x01\xff", Err((11, 5))),
    (1, b"\x30\x00\x03\x00\x00\x07", Err((10, 4))),
    (1, b"\x30\x00\x03\x00\x10\xfb", Err((10, 4))),
    (1, b"\x30\x00\x03\x04\x00\x07", Err((9, 3))),
    (1, b"\x30\x00\x02\x00\x01", Err((8, 1))),
    (0, b"\x30\x00\x03\x00\x01\x01", Err((5, 0))),
    (1, b"\x30\x00\x03\x00\x01\x07", Ok(Heard::Known)),
    (2, b"\x30\x00\x03\x00\x01\x08", Ok(Heard::New)),
    (1, b"\x30\x00\x03\x00\x02\x08", Ok(Heard::New)),
    (1, b"\x30\x00\x03\x01\x01\x08", Ok(Heard::New)),
    (3, b"\x30\x00\x03\x03\x0f\xfa", Ok(Heard::New)),
    (3, b"\x30\x00\x03\x03\x0f\xfa", Ok(Heard::Known)),
    (3, b"\x30\x00\x03\x03\x0f\x00", Err((13, 5))),
];

fn check_heard<const THIRD: bool>(rt: &impl Abort) -> Result<(), Fail> {
    let mut replica = sharing::<THIRD>()?;
    replica.check_cases(rt, &HEARD);
    replica.check_said(rt, 0x300000, &[]);
    Ok(())
}

#[test]
fn shares_are_heard(rt: HostRuntime) -> Result<(), Fail> {
    check_heard::<false>(&rt)?;
    check_heard::<true>(&rt)
}

// The dealt coin has no shares: the tag comes before all that is wrong behind it.
#[test]
fn a_dealt_coin_hears_none(rt: HostRuntime) -> Result<(), Fail> {
    let cases: [Case; 4] = [
        (1, b"\x30\x00\x03\x00\x01\x07", Err((7, 0))),
        (1, b"\x30\x00\x03\x04\x00\xfb", Err((7, 0))),
        (1, b"\x30\x00\x02\x00\x01", Err((7, 0))),
        (1, b"\x30\x00\x03\x00\x01", Err((6, 5))),
    ];
    let coin = DealtCoin::same(0);
    let mut two: TwoPhased = proposed(coin)?;
    two.check_cases(&rt, &cases);
    let mut three: ThreePhased = proposed(coin)?;
    three.check_cases(&rt, &cases);
    Ok(())
}

// What comes once the own share of round 1 is said: 46, 50 and 54 lie on 42 + 4z, so ballot 3 is decided 0. A different
// share between them is refused, and does not count. In round 2 the own share waits for its verdict again.
fn check_gone_on<const THIRD: bool>(rt: &impl Abort, replica: &mut Sharing<THIRD>) {
    replica.check_said(rt, 0x300000, &[SAID]);
    let turns: [Turn; 1] = [(1, b"\x30\x00\x03\x03\x01\x32", 0x203200, false)];
    replica.check_turns(rt, &turns);
    assert_eq!(rt; replica.hear(1, b"\x30\x00\x03\x03\x01\x33"), Err((13, 5)));
    let turns: [Turn; 1] = [(2, b"\x30\x00\x03\x03\x01\x36", 0x203200, true)];
    replica.check_turns(rt, &turns);
    let [_, _, _, three, ..] = replica.tables.records;
    assert_eq!(rt; three.ballot.decided, Some(false));
    replica.check_said(rt, 0x300000, &[SAID]);
}

#[test]
fn two_phases_share_at_the_verdict(rt: HostRuntime) -> Result<(), Fail> {
    let mut replica = sharing::<false>()?;
    replica.check_turns(&rt, &OPENED);
    let turns: [Turn; 4] = [
        (1, FIRST, OWN, false),
        (2, FIRST, OWN, false),
        (1, SECOND, OWN, false),
        (2, SECOND, OWN, true),
    ];
    replica.check_turns(&rt, &turns);
    check_gone_on(&rt, &mut replica);
    let turns: [Turn; 4] = [
        (1, b"\x20\x00\x03\x03\x02\x00", 0x30322f, false),
        (2, b"\x20\x00\x03\x03\x02\x00", 0x30322f, false),
        (1, b"\x21\x00\x03\x03\x02\x00", 0x30322f, false),
        (2, b"\x21\x00\x03\x03\x02\x00", 0x30322f, true),
    ];
    replica.check_turns(&rt, &turns);
    replica.check_said(&rt, 0x300000, &[SAID, b"\x30\x00\x03\x03\x02\x2f"]);
    Ok(())
}

#[test]
fn three_phases_share_at_the_verdict(rt: HostRuntime) -> Result<(), Fail> {
    let mut replica = sharing::<true>()?;
    replica.check_turns(&rt, &OPENED);
    let turns: [Turn; 6] = [
        (1, FIRST, OWN, false),
        (2, FIRST, OWN, false),
        (1, SECOND, OWN, false),
        (2, SECOND, OWN, false),
        (1, THIRD_VOTE, OWN, false),
        (2, THIRD_VOTE, OWN, true),
    ];
    replica.check_turns(&rt, &turns);
    check_gone_on(&rt, &mut replica);
    Ok(())
}

// 46, 51 and 56 lie on 41 + 5z: the coin shows 1 before there is a verdict, and that says no share. The verdict {0} then
// says it and goes on with 0 at once, and decides nothing.
#[test]
fn shares_before_the_verdict(rt: HostRuntime) -> Result<(), Fail> {
    let mut replica = sharing::<false>()?;
    let turns: [Turn; 2] = [
        (1, b"\x30\x00\x03\x03\x01\x33", OWN, false),
        (2, b"\x30\x00\x03\x03\x01\x38", OWN, false),
    ];
    replica.check_turns(&rt, &turns);
    replica.check_turns(&rt, &OPENED);
    let turns: [Turn; 4] = [
        (1, FIRST, OWN, false),
        (2, FIRST, OWN, false),
        (1, SECOND, OWN, false),
        (2, SECOND, OWN, true),
    ];
    replica.check_turns(&rt, &turns);
    replica.check_said(&rt, 0x300000, &[SAID]);
    assert!(rt; replica.has_said(0x203200));
    let [_, _, _, three, ..] = replica.tables.records;
    assert_eq!(rt; three.ballot.decided, None);
    Ok(())
}

// Replica 1's share is wrong; 46, 54 and 58 lie on 42 + 4z at 1, 3 and 4.
#[test]
fn one_wrong_share_is_borne(rt: HostRuntime) -> Result<(), Fail> {
    let mut replica = sharing::<false>()?;
    replica.check_turns(&rt, &OPENED);
    let turns: [Turn; 7] = [
        (1, FIRST, 0x213100, false),
        (2, FIRST, 0x213100, true),
        (1, SECOND, OWN, false),
        (2, SECOND, OWN, true),
        (1, b"\x30\x00\x03\x03\x01\x33", 0x203200, false),
        (2, b"\x30\x00\x03\x03\x01\x36", 0x203200, false),
        (3, b"\x30\x00\x03\x03\x01\x3a", 0x203200, true),
    ];
    replica.check_turns(&rt, &turns);
    let [_, _, _, three, ..] = replica.tables.records;
    assert_eq!(rt; three.ballot.decided, Some(false));
    Ok(())
}

// The own second vote is for 1, those of replicas 1 and 2 are for 0: the verdict is both, and the ballot goes on with the
// coin's bit 1, undecided.
#[test]
fn both_goes_on_with_the_coin(rt: HostRuntime) -> Result<(), Fail> {
    let mut replica = sharing::<false>()?;
    replica.check_turns(&rt, &OPENED);
    let turns: [Turn; 8] = [
        (1, b"\x20\x00\x03\x03\x01\x01", 0x203101, false),
        (2, b"\x20\x00\x03\x03\x01\x01", 0x213101, true),
        (1, FIRST, OWN, false),
        (2, FIRST, OWN, false),
        (1, SECOND, OWN, false),
        (2, SECOND, OWN, true),
        (1, b"\x30\x00\x03\x03\x01\x33", 0x203201, false),
        (2, b"\x30\x00\x03\x03\x01\x38", 0x203201, true),
    ];
    replica.check_turns(&rt, &turns);
    assert!(rt; replica.has_said(0x203101));
    assert!(rt; !replica.has_said(0x203200));
    let [_, _, _, three, ..] = replica.tables.records;
    assert_eq!(rt; three.ballot.decided, None);
    Ok(())
}
