// The bytes and positions of messages.
use messages::message::{BitSet, Message, Phase, Vote};
use sheets::kinds::Takings;
use sheets::sheet::Sheet;
use std::process::Abort;
use std::test::Fail;

// The message is written in these bytes, and no others change; and it has this position.
fn check_message(
    rt: &impl Abort,
    message: Message<Takings>,
    bytes: &[u8],
    position: u32,
) -> Result<(), Fail> {
    let mut out = [0xeeu8; 20];
    let len = message.write(&mut out)?;
    assert!(rt; len <= 20);
    assert_eq!(rt; &out[0..len], bytes);
    for b in &out[len..] {
        assert_eq!(rt; *b, 0xee);
    }
    assert_eq!(rt; message.position(), position);
    Ok(())
}

#[test]
fn sheets_are_written(rt: HostRuntime) -> Result<(), Fail> {
    let sheet = Takings::new(1250, 3)?;
    let send = Message::Sheet {
        phase: Phase::Send,
        slot: 0,
        sheet,
    };
    check_message(
        &rt,
        send,
        b"\x10\x00\x0d\x00\x00\x00\x00\x00\x00\x00\x04\xe2\x00\x00\x00\x03",
        0x10_0000,
    )?;
    let ready = Message::Sheet {
        phase: Phase::Ready,
        slot: 15,
        sheet,
    };
    check_message(
        &rt,
        ready,
        b"\x12\x00\x0d\x0f\x00\x00\x00\x00\x00\x00\x04\xe2\x00\x00\x00\x03",
        0x12_f000,
    )
}

#[test]
fn votes_are_written(rt: HostRuntime) -> Result<(), Fail> {
    check_message(
        &rt,
        Message::Bit {
            vote: Vote::First,
            slot: 2,
            round: 0,
            bit: true,
        },
        b"\x20\x00\x03\x02\x00\x01",
        0x20_2001,
    )?;
    check_message(
        &rt,
        Message::Bit {
            vote: Vote::Second,
            slot: 2,
            round: 15,
            bit: false,
        },
        b"\x21\x00\x03\x02\x0f\x00",
        0x21_2f00,
    )?;
    check_message(
        &rt,
        Message::Set {
            tag: 0x22,
            slot: 3,
            round: 1,
            bits: BitSet::Both,
        },
        b"\x22\x00\x03\x03\x01\x03",
        0x22_3103,
    )?;
    check_message(
        &rt,
        Message::Set {
            tag: 0x2f,
            slot: 3,
            round: 1,
            bits: BitSet::One,
        },
        b"\x2f\x00\x03\x03\x01\x02",
        0x2f_3102,
    )?;
    check_message(
        &rt,
        Message::Share {
            slot: 3,
            round: 9,
            share: 250,
        },
        b"\x30\x00\x03\x03\x09\xfa",
        0x30_39fa,
    )
}

#[test]
fn a_short_output_stays(rt: HostRuntime) -> Result<(), Fail> {
    let message: Message<Takings> = Message::Share {
        slot: 3,
        round: 9,
        share: 250,
    };
    let mut out = [0xeeu8; 5];
    let written = message.write(&mut out);
    assert_eq!(rt;
        written.map_err(|e| (e.reason.number(), e.place)),
        Err((16, 0))
    );
    assert_eq!(rt; &out[..], &[0xeeu8; 5][..]);
    Ok(())
}
