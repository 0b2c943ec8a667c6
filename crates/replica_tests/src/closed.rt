// Closing, listing and recording, with decisions put into the tables by hand.
use crate::replicas::{RECORD_OF_THREE, Replica, is_written};
use basis::heard::Heard;
use closing::list::ListEntry;
use coins::dealt::DealtCoin;
use replica::states::{Closed, Running};
use sheets::kinds::{Label, Takings};
use sheets::sheet::Sheet;
use std::process::Abort;
use std::test::Fail;

// Readies of 1250, -200 and 0 cents for slots 0 to 2.
pub const READIES: [&[u8]; 3] = [
    b"\x12\x00\x0d\x00\x00\x00\x00\x00\x00\x00\x04\xe2\x00\x00\x00\x03",
    b"\x12\x00\x0d\x01\xff\xff\xff\xff\xff\xff\xff\x38\x00\x00\x00\x01",
    b"\x12\x00\x0d\x02\x00\x00\x00\x00\x00\x00\x00\x00\x00\x00\x00\x00",
];

// Replica 0, to which replicas 1 and 2 have said readies; with its own they deliver.
pub fn delivering<S: Sheet>(
    sheet: &S,
    readies: [&[u8]; 3],
) -> Result<Replica<Running, S, DealtCoin, true>, Fail> {
    let mut replica = Replica::offering(0, sheet, DealtCoin::same(0))?;
    for ready in readies {
        let _ = replica.hear(1, ready);
        let _ = replica.hear(2, ready);
    }
    Ok(replica)
}

// Puts decisions into the tables.
pub fn decide<S: Sheet>(
    replica: &mut Replica<Running, S, DealtCoin, true>,
    decided: [Option<bool>; 4],
) {
    let [zero, one, two, three] = decided;
    replica.tables.records[0].ballot.decided = zero;
    replica.tables.records[1].ballot.decided = one;
    replica.tables.records[2].ballot.decided = two;
    replica.tables.records[3].ballot.decided = three;
}

// The lowest undecided ballot comes first, then the lowest missing sheet; the replica runs on.
#[test]
fn close_names_the_lowest(rt: HostRuntime) -> Result<(), Fail> {
    let (out, into) = (Some(false), Some(true));
    let mut replica = delivering(&Takings::new(1250, 3)?, READIES)?;
    for (decided, refusal) in [
        ([None, None, None, None], (14, 0)),
        ([out, into, None, None], (14, 2)),
        ([into, into, None, into], (14, 2)),
        ([into, into, into, None], (14, 3)),
        ([into, into, into, into], (15, 3)),
    ] {
        decide(&mut replica, decided);
        let Err(back) = replica.close() else {
            return Err(Fail::new("closed"));
        };
        assert_eq!(rt; back.1, refusal);
        replica = back.0;
    }
    let mut early = Replica::offering(0, &Takings::new(1250, 3)?, DealtCoin::same(0))?;
    decide(&mut early, [out, into, into, out]);
    assert_eq!(rt; early.close().err().map(|back| back.1), Some((15, 1)));
    Ok(())
}

// Checks the list and the record where takings of 1250, -200 and 0 cents are in.
pub fn check_closed(
    rt: &impl Abort,
    closed: &Replica<Closed, Takings, DealtCoin, true>,
) -> Result<(), Fail> {
    for (index, replica, cents, receipts) in [(0, 0, 1250, 3), (1, 1, -200, 1), (2, 2, 0, 0)] {
        let sheet = Takings::new(cents, receipts)?;
        assert_eq!(rt; closed.entry(index), Ok(ListEntry { replica, sheet }));
    }
    assert_eq!(rt; closed.listed(3), Err((17, 0)));
    assert_eq!(rt; closed.listed(usize::MAX), Err((17, 0)));
    let mut short = [0xeeu8; 54];
    assert_eq!(rt; closed.record(&mut short), Err((16, 0)));
    assert_eq!(rt; short, [0xee; 54]);
    let mut bytes = [0xeeu8; 56];
    assert_eq!(rt; closed.record(&mut bytes), Ok(55));
    assert!(rt; is_written(&bytes, RECORD_OF_THREE));
    Ok(())
}

#[test]
fn lists_and_records(rt: HostRuntime) -> Result<(), Fail> {
    let (out, into) = (Some(false), Some(true));
    let mut replica = delivering(&Takings::new(1250, 3)?, READIES)?;
    decide(&mut replica, [into, into, into, out]);
    let Ok(mut closed) = replica.close() else {
        return Err(Fail::new("close is refused"));
    };
    check_closed(&rt, &closed)?;
    // a closed replica hears and says on, and its record stays
    let late = b"\x21\x00\x03\x03\x00\x01";
    assert_eq!(rt; closed.hear(3, late), Ok(Heard::New));
    assert_eq!(rt; closed.hear(3, late), Ok(Heard::Known));
    assert_eq!(rt; closed.hear(3, b"\x21\x00\x03\x03\x00\x00"), Err((13, 5)));
    assert!(rt; closed.has_said(0x100000));
    check_closed(&rt, &closed)
}

// A sheet message of an empty label file.
fn label_message(tag: u8, slot: u8) -> [u8; 40] {
    let mut packet = [0u8; 40];
    packet[0] = tag;
    packet[2] = 37;
    packet[3] = slot;
    packet
}

#[test]
fn labels_are_recorded(rt: HostRuntime) -> Result<(), Fail> {
    let sheet = Label {
        fingerprint: [0; 4],
        size: 0,
    };
    let readies = [0, 1, 2].map(|slot| label_message(0x12, slot));
    let [zero, one, two] = &readies;
    let mut replica = delivering(&sheet, [zero, one, two])?;
    let send = label_message(0x10, 1);
    let mut other = send;
    other[39] = 1;
    assert_eq!(rt; replica.hear(1, &send[..16]), Err((6, 16)));
    assert_eq!(rt; replica.hear(1, b"\x10\x00\x01\x01"), Err((8, 1)));
    assert_eq!(rt; replica.hear(2, &send), Err((12, 3)));
    assert_eq!(rt; replica.hear(1, &send), Ok(Heard::New));
    assert_eq!(rt; replica.hear(1, &other), Err((13, 4)));
    decide(
        &mut replica,
        [Some(true), Some(true), Some(true), Some(false)],
    );
    let Ok(closed) = replica.close() else {
        return Err(Fail::new("close is refused"));
    };
    let mut bytes = [0xeeu8; 128];
    assert_eq!(rt; closed.record(&mut bytes), Ok(127));
    assert!(rt; bytes.starts_with(b"\x40\x00\x04\x02\x04\x00\x07\x41\x00\x25\x00"));
    assert_eq!(rt; bytes[127], 0xee);
    Ok(())
}
