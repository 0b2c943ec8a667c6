// Packets that are refused, each with its number and place, in a hall of four.
use basis::refusal::Refusal;
use messages::message::{Message, Part};
use messages::read::read;
use messages::tags::{Format, VoteTags};
use sheets::kinds::{Label, Takings};

// A packet, and the number and place of its refusal, if it is refused: the numbers that users know are pinned here.
#[derive(Drop)]
struct Case {
    packet: &'static [u8],
    refusal: Option<(u8, usize)>,
}

fn refusal(r: Result<Message<Part<'_>>, Refusal>) -> Option<(u8, usize)> {
    r.err().map(|e| (e.reason.number(), e.place))
}

fn three_phase() -> Format {
    Format {
        n: 4,
        tags: VoteTags::basic().and(0x22),
        shares: true,
    }
}

#[test]
fn refusals_in_their_order(rt: HostRuntime) {
    let cases = [
        Case {
            packet: b"",
            refusal: Some((6, 0)),
        },
        Case {
            packet: b"\x20",
            refusal: Some((6, 1)),
        },
        Case {
            packet: b"\x20\x00",
            refusal: Some((6, 2)),
        },
        Case {
            packet: b"\x20\x00\x03",
            refusal: Some((6, 3)),
        },
        Case {
            packet: b"\x99\x00\x03\x00\x00",
            refusal: Some((6, 5)),
        },
        Case {
            packet: b"\x20\x00\x03\x00\x00\x01\x00",
            refusal: Some((6, 6)),
        },
        Case {
            packet: b"\x99\x00\x00\x07",
            refusal: Some((6, 3)),
        },
        Case {
            packet: b"\x13\x00\x03\x09\x99\x99",
            refusal: Some((7, 0)),
        },
        Case {
            packet: b"\x23\x00\x03\x09\x99\x99",
            refusal: Some((7, 0)),
        },
        Case {
            packet: b"\x31\x00\x00",
            refusal: Some((7, 0)),
        },
        Case {
            packet: b"\x20\x00\x02\x09\x99",
            refusal: Some((8, 1)),
        },
        Case {
            packet: b"\x30\x00\x04\x09\x99\x99\x99",
            refusal: Some((8, 1)),
        },
        Case {
            packet: b"\x10\x00\x01\x09",
            refusal: Some((8, 1)),
        },
        Case {
            packet: b"\x20\x00\x03\x04\x10\x02",
            refusal: Some((9, 3)),
        },
        Case {
            packet: b"\x20\x00\x03\x03\x10\x02",
            refusal: Some((10, 4)),
        },
        Case {
            packet: b"\x22\x00\x03\x00\x00\x01",
            refusal: Some((10, 4)),
        },
        Case {
            packet: b"\x30\x00\x03\x00\x00\xff",
            refusal: Some((10, 4)),
        },
        Case {
            packet: b"\x21\x00\x03\x03\x0f\x02",
            refusal: Some((11, 5)),
        },
        Case {
            packet: b"\x22\x00\x03\x03\x0f\x00",
            refusal: Some((11, 5)),
        },
        Case {
            packet: b"\x22\x00\x03\x03\x0f\x04",
            refusal: Some((11, 5)),
        },
        Case {
            packet: b"\x30\x00\x03\x03\x01\xfb",
            refusal: Some((11, 5)),
        },
        Case {
            packet: b"\x11\x00\x0d\x04\x00\x00\x00\xe8\xd4\xa5\x10\x01\x00\x00\x00\x00",
            refusal: Some((9, 3)),
        },
        Case {
            packet: b"\x11\x00\x0d\x03\x00\x00\x00\xe8\xd4\xa5\x10\x01\x00\x00\x00\x00",
            refusal: Some((11, 4)),
        },
        Case {
            packet: b"\x11\x00\x0d\x03\x00\x00\x00\xe8\xd4\xa5\x10\x00\x00\x00\x00\x00",
            refusal: None,
        },
        Case {
            packet: b"\x12\x00\x0d\x03\xff\xff\xff\x17\x2b\x5a\xf0\x00\xff\xff\xff\xff",
            refusal: None,
        },
        Case {
            packet: b"\x12\x00\x0d\x03\xff\xff\xff\x17\x2b\x5a\xef\xff\xff\xff\xff\xff",
            refusal: Some((11, 4)),
        },
        Case {
            packet: b"\x20\x00\x03\x03\x0f\x01",
            refusal: None,
        },
        Case {
            packet: b"\x30\x00\x03\x03\x01\xfa",
            refusal: None,
        },
    ];
    for case in &cases {
        assert_eq!(rt;
            refusal(read::<Takings>(case.packet, three_phase())),
            case.refusal
        );
    }
}

#[test]
fn tags_that_are_not_used(rt: HostRuntime) {
    let two_phase = Format {
        n: 4,
        tags: VoteTags::basic(),
        shares: false,
    };
    assert_eq!(rt;
        refusal(read::<Takings>(b"\x22\x00\x03\x00\x00\x01", two_phase)),
        Some((7, 0))
    );
    assert_eq!(rt;
        refusal(read::<Takings>(b"\x30\x00\x03\x00\x01\x01", two_phase)),
        Some((7, 0))
    );
    assert_eq!(rt;
        refusal(read::<Takings>(b"\x20\x00\x03\x00\x01\x01", two_phase)),
        None
    );
}

#[test]
fn a_label_is_36_bytes(rt: HostRuntime) {
    assert_eq!(rt;
        refusal(read::<Label>(
            b"\x10\x00\x0d\x00\x00\x00\x00\x00\x00\x00\x00\x00\x00\x00\x00\x00",
            three_phase(),
        )),
        Some((8, 1))
    );
    assert_eq!(rt;
        refusal(read::<Label>(
            b"\x10\x00\x25\x00aaaaaaaabbbbbbbbccccccccdddddddd\xff\xff\xff\xff",
            three_phase(),
        )),
        None
    );
}
