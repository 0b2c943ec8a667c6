// Tables that are too small: each call is refused with 4 at 0 before all else, and nothing changes.
use crate::closed::{READIES, check_closed, decide, delivering};
use crate::replicas::{FOR_FOUR, Lent, Replica, Told, empty_tables, offer, open};
use basis::heard::Heard;
use coins::dealt::DealtCoin;
use replica::offered::Offered;
use replica::states::{Closed, Running};
use sheets::kinds::Takings;
use std::process::Abort;
use std::test::Fail;

const REFUSED: (u8, usize) = (4, 0);

// Each table one row short of what a hall of four needs, and no tables.
const SHORT: [Lent; 4] = [
    Lent {
        records: 3,
        rounds: 60,
        places: 36,
    },
    Lent {
        records: 4,
        rounds: 59,
        places: 36,
    },
    Lent {
        records: 4,
        rounds: 60,
        places: 35,
    },
    Lent {
        records: 0,
        rounds: 0,
        places: 0,
    },
];

// What replica 0 has said that has offered 1250 cents and has delivered slots 0 to 2.
const SAID: [&[u8]; 12] = [
    b"\x10\x00\x0d\x00\x00\x00\x00\x00\x00\x00\x04\xe2\x00\x00\x00\x03",
    b"\x11\x00\x0d\x00\x00\x00\x00\x00\x00\x00\x04\xe2\x00\x00\x00\x03",
    b"\x12\x00\x0d\x00\x00\x00\x00\x00\x00\x00\x04\xe2\x00\x00\x00\x03",
    b"\x12\x00\x0d\x01\xff\xff\xff\xff\xff\xff\xff\x38\x00\x00\x00\x01",
    b"\x12\x00\x0d\x02\x00\x00\x00\x00\x00\x00\x00\x00\x00\x00\x00\x00",
    b"\x20\x00\x03\x00\x00\x01",
    b"\x20\x00\x03\x01\x00\x01",
    b"\x20\x00\x03\x02\x00\x01",
    b"\x20\x00\x03\x03\x00\x00",
    b"\x21\x00\x03\x00\x00\x01",
    b"\x21\x00\x03\x01\x00\x01",
    b"\x21\x00\x03\x02\x00\x01",
];

// A second vote that is new to it.
const LATE: &[u8] = b"\x21\x00\x03\x03\x00\x01";

type Player<L> = Replica<L, Takings, DealtCoin, true>;

// The running replica that has said this.
fn running() -> Result<Player<Running>, Fail> {
    delivering(&Takings::new(1250, 3)?, READIES)
}

// The same, closed with the sheets of slots 0 to 2.
fn closed() -> Result<Player<Closed>, Fail> {
    let into = Some(true);
    let mut replica = running()?;
    decide(&mut replica, [into, into, into, Some(false)]);
    let Ok(closed) = replica.close() else {
        return Err(Fail::new("close is refused"));
    };
    Ok(closed)
}

// Hear, look and say: also where a later check would fail.
fn check_refused<L: Offered>(rt: &impl Abort, replica: &mut Player<L>) {
    for (sender, packet) in [(0, &b""[..]), (4, LATE), (1, b"\x20"), (1, LATE)] {
        assert_eq!(rt; replica.hear(sender, packet), Err(REFUSED));
    }
    assert_eq!(rt; replica.look(), Err(REFUSED));
    let mut out = [0xeeu8; 40];
    for from in [0, 0x200000, u32::MAX] {
        assert_eq!(rt; replica.say(from, &mut out), Err(REFUSED));
        assert_eq!(rt; replica.say(from, &mut [0u8; 0]), Err(REFUSED));
    }
    assert_eq!(rt; out, [0xee; 40]);
}

#[test]
fn a_running_replica_is_as_before(rt: HostRuntime) -> Result<(), Fail> {
    let mut replica = running()?;
    let before = replica.tables;
    replica.check_said(&rt, 0, &SAID);
    for lent in SHORT {
        replica.lent = lent;
        check_refused(&rt, &mut replica);
        let Err((back, refusal)) = replica.close() else {
            return Err(Fail::new("closed without tables"));
        };
        assert_eq!(rt; refusal, REFUSED);
        replica = back;
        replica.lent = FOR_FOUR;
        replica.check_said(&rt, 0, &SAID);
        assert!(rt; replica.tables == before);
    }
    assert_eq!(rt; replica.hear(1, LATE), Ok(Heard::New));
    Ok(())
}

// List and record: also where a later check would fail.
fn check_unrecorded(rt: &impl Abort, closed: &Player<Closed>) {
    for index in [0, 3, usize::MAX] {
        assert_eq!(rt; closed.listed(index), Err(REFUSED));
    }
    let mut out = [0xeeu8; 55];
    assert_eq!(rt; closed.record(&mut out), Err(REFUSED));
    assert_eq!(rt; closed.record(&mut [0u8; 0]), Err(REFUSED));
    assert_eq!(rt; out, [0xee; 55]);
}

#[test]
fn a_closed_replica_is_as_before(rt: HostRuntime) -> Result<(), Fail> {
    let mut closed = closed()?;
    check_closed(&rt, &closed)?;
    for lent in SHORT {
        closed.lent = lent;
        check_refused(&rt, &mut closed);
        check_unrecorded(&rt, &closed);
        closed.lent = FOR_FOUR;
        closed.check_said(&rt, 0, &SAID);
        check_closed(&rt, &closed)?;
    }
    assert_eq!(rt; closed.hear(1, LATE), Ok(Heard::New));
    Ok(())
}

// Open is handed the tables of a closed replica, and refuses them, as it does a wrong number.
#[test]
fn a_refused_open_clears_nothing(rt: HostRuntime) -> Result<(), Fail> {
    let mut closed = closed()?;
    for lent in SHORT {
        let opened = open::<Takings, true>(4, 1, &mut closed.tables, lent);
        assert_eq!(rt; opened.err(), Some(REFUSED));
    }
    for (n, own, refusal) in [(5, 0, (2, 0)), (4, 4, (3, 0)), (7, 0, REFUSED)] {
        let opened = open::<Takings, true>(n, own, &mut closed.tables, FOR_FOUR);
        assert_eq!(rt; opened.err(), Some(refusal));
    }
    closed.check_said(&rt, 0, &SAID);
    check_closed(&rt, &closed)
}

// Offer is handed the tables of a closed replica, and refuses them; it may be tried again.
#[test]
fn a_refused_offer_says_nothing(rt: HostRuntime) -> Result<(), Fail> {
    let mut closed = closed()?;
    let sheet = Takings::new(5, 5)?;
    let opened: Told<_> = open::<Takings, true>(4, 1, &mut empty_tables::<Takings>(), FOR_FOUR);
    let Ok(mut fresh) = opened else {
        return Err(Fail::new("open is refused"));
    };
    let (tables, coin) = (&mut closed.tables, &mut closed.coin);
    for lent in SHORT {
        let offered = offer::<Takings, DealtCoin, true>(fresh, &sheet, tables, lent, coin);
        let Err((back, refusal)) = offered else {
            return Err(Fail::new("offered without tables"));
        };
        assert_eq!(rt; refusal, REFUSED);
        fresh = back;
    }
    closed.check_said(&rt, 0, &SAID);
    check_closed(&rt, &closed)?;
    let offered = offer::<Takings, DealtCoin, true>(
        fresh,
        &sheet,
        &mut empty_tables::<Takings>(),
        FOR_FOUR,
        &mut DealtCoin::same(0),
    );
    assert!(rt; offered.is_ok());
    Ok(())
}
