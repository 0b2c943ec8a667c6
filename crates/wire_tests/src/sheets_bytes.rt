// The bytes of sheets, and what their rows hold.
use sheets::kinds::{Label, Takings, TakingsRow};
use sheets::rows::count_same;
use sheets::sheet::Sheet;
use std::test::Fail;

#[test]
fn takings_in_range(rt: HostRuntime) -> Result<(), Fail> {
    assert!(rt; Takings::new(1_000_000_000_000, 7).is_ok());
    assert!(rt; Takings::new(-1_000_000_000_000, 7).is_ok());
    // the number and place that users see are pinned
    let refusals = [1_000_000_000_001, -1_000_000_000_001, i64::MAX, i64::MIN];
    for cents in refusals {
        let refusal = Takings::new(cents, 0).err();
        assert_eq!(rt; refusal.map(|e| (e.reason.number(), e.place)), Some((1, 0)));
    }
    Ok(())
}

#[test]
fn takings_bytes(rt: HostRuntime) -> Result<(), Fail> {
    let sheet = Takings::new(-200, 1)?;
    let mut out = [0u8; 12];
    sheet.encode(&mut out);
    assert_eq!(rt;
        &out[..],
        &b"\xff\xff\xff\xff\xff\xff\xff\x38\x00\x00\x00\x01"[..]
    );
    let back = Takings::decode(&out);
    assert_eq!(rt; back.map(|b| (b.cents, b.receipts)), Some((-200, 1)));
    Ok(())
}

#[test]
fn label_bytes(rt: HostRuntime) {
    let sheet = Label {
        fingerprint: [1, 2, 3, u64::MAX],
        size: 258,
    };
    let mut out = [0u8; 36];
    sheet.encode(&mut out);
    assert_eq!(rt;
        &out[..],
        &b"\0\0\0\0\0\0\0\x01\0\0\0\0\0\0\0\x02\0\0\0\0\0\0\0\x03\xff\xff\xff\xff\xff\xff\xff\xff\0\0\x01\x02"[..]
    );
    assert!(rt; Label::decode(&out[1..]).is_none());
    let row = sheet.to_row();
    assert!(rt; sheet.is_in(&row));
    assert!(rt; !sheet.is_in(&Label::empty_row()));
    assert!(rt; Label::from_row(Label::empty_row()).is_none());
}

#[test]
fn rows_that_hold_a_sheet(rt: HostRuntime) -> Result<(), Fail> {
    let sheet = Takings::new(5, 5)?;
    let rows = [
        sheet.to_row(),
        Takings::empty_row(),
        TakingsRow {
            cents: 5,
            receipts: 6,
        },
        TakingsRow {
            cents: 1_000_000_000_001,
            receipts: 5,
        },
        sheet.to_row(),
    ];
    assert_eq!(rt; count_same(&rows, &sheet), 2);
    assert!(rt; Takings::from_row(rows[3]).is_none());
    Ok(())
}
