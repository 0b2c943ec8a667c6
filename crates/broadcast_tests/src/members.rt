// The calls and the counts over tables as they stand, at a member of a hall that nobody opened.
use crate::four::{ROUNDS, Tables};
use basis::heard::Heard;
use basis::member::Member;
use broadcast::calls::{hear, look};
use broadcast::say::say;
use messages::tags::VoteTags;
use sheets::kinds::Takings;
use slots::delivered::{count_deliveries, is_delivered};
use slots::slot::Slot;
use std::test::Fail;

#[test]
fn hears_looks_and_says(rt: HostRuntime) -> Result<(), Fail> {
    let member = Member::new(4, 0)?;
    let mut tables = Tables::empty();
    let ready = b"\x12\x00\x0d\x03\x00\x00\x00\x00\x00\x00\x00\xc8\x00\x00\x00\x01";
    for sender in 1..3 {
        let heard = hear::<Takings>(
            &mut tables.records,
            ROUNDS,
            &mut tables.places,
            member,
            VoteTags::basic(),
            false,
            sender,
            ready,
        );
        assert_eq!(rt; heard?, Heard::New);
    }
    tables.records = [Slot { delivered: None }; 4];
    look::<Takings>(&mut tables.records, ROUNDS, &mut tables.places, member)?;
    assert!(rt; is_delivered(&tables.records, 3));
    let mut out = [0u8; 16];
    let said = say::<Takings>(&tables.records, ROUNDS, &tables.places, member, 0, &mut out)?;
    assert_eq!(rt; said, Some(1191936));
    assert_eq!(rt; &out[..], &ready[..]);
    Ok(())
}

#[test]
fn small_tables_refuse_a_look(rt: HostRuntime) -> Result<(), Fail> {
    let member = Member::new(4, 0)?;
    let mut tables = Tables::empty();
    let looked = look::<Takings>(&mut tables.records, 59, &mut tables.places, member);
    assert_eq!(rt;
        looked.map_err(|e| (e.reason.number(), e.place)),
        Err((4, 0))
    );
    Ok(())
}

#[test]
fn counts_deliveries_below(rt: HostRuntime) {
    let none = Slot { delivered: None };
    let some = Slot { delivered: Some(2) };
    let records = [none, some, none, some, some];
    assert!(rt; !is_delivered(&records, 2));
    assert!(rt; is_delivered(&records, 4));
    assert_eq!(rt; count_deliveries(&records, 0), 0);
    assert_eq!(rt; count_deliveries(&records, 4), 2);
    assert_eq!(rt; count_deliveries(&records, 5), 3);
}
