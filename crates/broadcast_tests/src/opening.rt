// Opening and offering, and their refusals.
use crate::four::{ROUNDS, Tables};
use broadcast::states::Fresh;
use sheets::kinds::{Takings, TakingsRow};
use slots::slot::Slot;
use std::test::Fail;

// The number of the refusal of an opening, if it is refused: the number that users see is what the tests pin.
fn open_number(
    n: u8,
    own: u8,
    records: &mut [Slot],
    rounds: usize,
    places: &mut [TakingsRow],
) -> Option<u8> {
    let opened = Fresh::open::<Takings>(n, own, records, rounds, places);
    opened.err().map(|e| e.reason.number())
}

#[test]
fn open_checks_in_order(rt: HostRuntime) {
    let mut three = [Slot { delivered: Some(3) }; 3];
    let mut four = [Slot { delivered: Some(3) }; 4];
    let mut short = [TakingsRow {
        cents: 1,
        receipts: 1,
    }; 35];
    let mut places = [TakingsRow {
        cents: 1,
        receipts: 1,
    }; 36];
    assert_eq!(rt; open_number(5, 9, &mut three, 0, &mut short), Some(2));
    assert_eq!(rt; open_number(0, 0, &mut four, 60, &mut places), Some(2));
    assert_eq!(rt; open_number(4, 4, &mut three, 0, &mut short), Some(3));
    assert_eq!(rt; open_number(4, 3, &mut three, 60, &mut places), Some(4));
    assert_eq!(rt; open_number(4, 3, &mut four, 59, &mut places), Some(4));
    assert_eq!(rt; open_number(4, 3, &mut four, 60, &mut short), Some(4));
    assert_eq!(rt; open_number(4, 3, &mut four, 60, &mut places), None);
}

#[test]
fn open_clears_what_it_needs(rt: HostRuntime) {
    let mut records = [Slot { delivered: Some(3) }; 5];
    let mut places = [TakingsRow {
        cents: 1,
        receipts: 1,
    }; 37];
    assert_eq!(rt; open_number(4, 3, &mut records, 60, &mut places), None);
    let [_, _, _, last, beyond] = records;
    assert_eq!(rt; last.delivered, None);
    assert_eq!(rt; beyond.delivered, Some(3));
}

#[test]
fn small_tables_refuse_an_offer(rt: HostRuntime) -> Result<(), Fail> {
    let mut tables = Tables::empty();
    let fresh = Fresh::open::<Takings>(4, 0, &mut tables.records, ROUNDS, &mut tables.places)?;
    let sheet = Takings::new(5, 5)?;
    match fresh.offer(&mut tables.records, 59, &mut tables.places, &sheet) {
        Ok(_) => Err(Fail::new("offered without tables")),
        Err(back) => {
            assert_eq!(rt; (back.1.reason.number(), back.1.place), (4, 0));
            Ok(())
        },
    }
}
