// Opening: its checks in their order, and which rows it clears.
use crate::replicas::{FOR_FOUR, FOR_SEVEN, Lent, ThreePhased, empty_tables, open};
use coins::dealt::DealtCoin;
use sheets::kinds::Takings;
use std::test::Fail;

// A hall size, an own number, how many rows of each table are lent, and the refusal's number and place, if refused.
type Opening = (u8, u8, (usize, usize, usize), Option<(u8, usize)>);

#[test]
fn open_checks_in_order(rt: HostRuntime) {
    let cases: [Opening; 15] = [
        (5, 9, (0, 0, 0), Some((2, 0))),
        (0, 0, (4, 60, 36), Some((2, 0))),
        (4, 4, (0, 0, 0), Some((3, 0))),
        (4, 4, (4, 60, 36), Some((3, 0))),
        (4, 3, (3, 60, 36), Some((4, 0))),
        (4, 3, (4, 59, 36), Some((4, 0))),
        (4, 3, (4, 60, 35), Some((4, 0))),
        (7, 3, (4, 60, 36), Some((4, 0))),
        (7, 6, (6, 105, 105), Some((4, 0))),
        (7, 6, (7, 104, 105), Some((4, 0))),
        (7, 6, (7, 105, 104), Some((4, 0))),
        (16, 15, (7, 105, 105), Some((4, 0))),
        (4, 3, (4, 60, 36), None),
        (4, 3, (7, 105, 105), None),
        (7, 6, (7, 105, 105), None),
    ];
    for (n, own, (records, rounds, places), refused) in cases {
        let lent = Lent {
            records,
            rounds,
            places,
        };
        let opened = open::<Takings, true>(n, own, &mut empty_tables::<Takings>(), lent);
        assert_eq!(rt; opened.err(), refused);
    }
}

#[test]
fn open_clears_what_is_lent(rt: HostRuntime) -> Result<(), Fail> {
    let mut tables = ThreePhased::offering(0, &Takings::new(5, 5)?, DealtCoin::same(0))?.tables;
    assert!(rt; tables != empty_tables::<Takings>());
    let opened = open::<Takings, true>(4, 1, &mut tables, FOR_FOUR);
    assert!(rt; opened.is_ok());
    assert!(rt; tables == empty_tables::<Takings>());
    Ok(())
}

// Replica 6 of seven that has heard these from replica 1.
fn last_of_seven(packets: &[&[u8]]) -> Result<ThreePhased, Fail> {
    let sheet = Takings::new(5, 5)?;
    let mut last = ThreePhased::offering_in(7, FOR_SEVEN, 6, &sheet, DealtCoin::same(0))?;
    for packet in packets {
        let _ = last.hear(1, packet);
    }
    Ok(last)
}

// Votes in slot 6 stand in the last rows, which a hall of four does not need; votes in slots 0 and 3, and the echo of
// slot 0, stand in rows that it does.
#[test]
fn open_leaves_further_rows(rt: HostRuntime) -> Result<(), Fail> {
    let far: [&[u8]; 2] = [b"\x20\x00\x03\x06\x00\x01", b"\x22\x00\x03\x06\x0f\x03"];
    let near: [&[u8]; 5] = [
        far[0],
        far[1],
        b"\x20\x00\x03\x00\x00\x01",
        b"\x22\x00\x03\x03\x0f\x01",
        b"\x11\x00\x0d\x00\x00\x00\x00\x00\x00\x00\x00\xc8\x00\x00\x00\x01",
    ];
    let kept = last_of_seven(&far)?.tables;
    let mut tables = last_of_seven(&near)?.tables;
    assert!(rt; tables != kept);
    let opened = open::<Takings, true>(4, 1, &mut tables, FOR_SEVEN);
    assert!(rt; opened.is_ok());
    assert!(rt; tables == kept);
    Ok(())
}
