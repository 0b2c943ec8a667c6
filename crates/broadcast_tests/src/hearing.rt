// What a replica of four answers to packets, one after the other.
use crate::four::{Replica, Told};
use basis::heard::Heard;
use std::test::Fail;

// The sender, the packet, and the answer.
#[derive(Drop)]
struct Case {
    sender: u8,
    packet: &'static [u8],
    answer: Told<Heard>,
}

#[test]
fn answers_in_order(rt: HostRuntime) -> Result<(), Fail> {
    let mut replica = Replica::started(0, 0)?;
    let cases = [
        Case {
            sender: 0,
            packet: b"",
            answer: Err((5, 0)),
        },
        Case {
            sender: 4,
            packet: b"",
            answer: Err((5, 0)),
        },
        Case {
            sender: 1,
            packet: b"",
            answer: Err((6, 0)),
        },
        Case {
            sender: 1,
            packet: b"\x20\x00\x03\x00\x00\x01",
            answer: Err((7, 0)),
        },
        Case {
            sender: 1,
            packet: b"\x10\x00\x0d\x02\x00\x00\x00\xe8\xd4\xa5\x10\x01\x00\x00\x00\x00",
            answer: Err((11, 4)),
        },
        Case {
            sender: 1,
            packet: b"\x10\x00\x0d\x02\x00\x00\x00\xe8\xd4\xa5\x10\x00\x00\x00\x00\x00",
            answer: Err((12, 3)),
        },
        Case {
            sender: 1,
            packet: b"\x10\x00\x0d\x01\x00\x00\x00\x00\x00\x00\x00\xc8\x00\x00\x00\x01",
            answer: Ok(Heard::New),
        },
        Case {
            sender: 1,
            packet: b"\x10\x00\x0d\x01\x00\x00\x00\x00\x00\x00\x00\xc8\x00\x00\x00\x01",
            answer: Ok(Heard::Known),
        },
        Case {
            sender: 1,
            packet: b"\x10\x00\x0d\x01\x00\x00\x00\x00\x00\x00\x00\xc9\x00\x00\x00\x01",
            answer: Err((13, 4)),
        },
        Case {
            sender: 2,
            packet: b"\x11\x00\x0d\x01\x00\x00\x00\x00\x00\x00\x00\xc9\x00\x00\x00\x01",
            answer: Ok(Heard::New),
        },
        Case {
            sender: 2,
            packet: b"\x11\x00\x0d\x01\x00\x00\x00\x00\x00\x00\x00\xc8\x00\x00\x00\x01",
            answer: Err((13, 4)),
        },
    ];
    for case in &cases {
        assert_eq!(rt; replica.hear(case.sender, case.packet), case.answer);
    }
    Ok(())
}

#[test]
fn small_tables_come_first(rt: HostRuntime) -> Result<(), Fail> {
    let mut replica = Replica::started(0, 0)?;
    assert_eq!(rt; replica.hear_with(59, 0, b""), Err((4, 0)));
    Ok(())
}

#[test]
fn two_readies_make_a_third_and_deliver(rt: HostRuntime) -> Result<(), Fail> {
    let mut replica = Replica::started(0, 0)?;
    let ready = b"\x12\x00\x0d\x03\x00\x00\x00\x00\x00\x00\x00\xc8\x00\x00\x00\x01";
    let _ = replica.hear(1, ready);
    assert_eq!(rt; replica.delivered(3), None);
    let _ = replica.hear(2, ready);
    assert_eq!(rt; replica.delivered(3), Some((200, 1)));
    Ok(())
}
