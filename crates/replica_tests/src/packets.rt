// What replica 0 of four, which has just offered, answers to packets, one after the other.
use crate::replicas::{Case, ThreePhased, TwoPhased};
use basis::heard::Heard;
use coins::dealt::DealtCoin;
use sheets::kinds::Takings;
use std::test::Fail;

// Each refusal in its order, and what is new or known between them.
const IN_ORDER: [Case; 27] = [
    (0, b"\x20\x00\x03\x00\x00\x01", Err((5, 0))),
    (4, b"", Err((5, 0))),
    (1, b"", Err((6, 0))),
    (1, b"\x20\x00", Err((6, 2))),
    (1, b"\x20\x00\x03\x00\x00", Err((6, 5))),
    (1, b"\x20\x00\x03\x00\x00\x01\x00", Err((6, 6))),
    (1, b"\x13\x00\x00", Err((7, 0))),
    (1, b"\x13\x00\x01", Err((6, 3))),
    (1, b"\x22\x00\x03\x00\x00\x01", Err((10, 4))),
    (1, b"\x30\x00\x03\x00\x01\x07", Err((7, 0))),
    (1, b"\x20\x00\x02\x00\x00", Err((8, 1))),
    (1, b"\x20\x00\x03\x04\x00\x01", Err((9, 3))),
    (1, b"\x20\x00\x03\x00\x10\x01", Err((10, 4))),
    (1, b"\x20\x00\x03\x00\x00\x02", Err((11, 5))),
    (1, b"\x22\x00\x03\x00\x01\x00", Err((11, 5))),
    (
        1,
        b"\x10\x00\x0d\x02\x00\x00\x00\xe8\xd4\xa5\x10\x01\x00\x00\x00\x00",
        Err((11, 4)),
    ),
    (
        1,
        b"\x10\x00\x0d\x02\x00\x00\x00\xe8\xd4\xa5\x10\x00\x00\x00\x00\x00",
        Err((12, 3)),
    ),
    (
        1,
        b"\x10\x00\x0d\x01\x00\x00\x00\x00\x00\x00\x00\xc8\x00\x00\x00\x01",
        Ok(Heard::New),
    ),
    (
        1,
        b"\x10\x00\x0d\x01\x00\x00\x00\x00\x00\x00\x00\xc8\x00\x00\x00\x01",
        Ok(Heard::Known),
    ),
    (
        1,
        b"\x10\x00\x0d\x01\x00\x00\x00\x00\x00\x00\x00\xc9\x00\x00\x00\x01",
        Err((13, 4)),
    ),
    (1, b"\x21\x00\x03\x02\x00\x01", Ok(Heard::New)),
    (1, b"\x21\x00\x03\x02\x00\x00", Err((13, 5))),
    (1, b"\x20\x00\x03\x02\x00\x01", Ok(Heard::New)),
    (1, b"\x20\x00\x03\x02\x00\x00", Ok(Heard::New)),
    (1, b"\x22\x00\x03\x02\x01\x03", Ok(Heard::New)),
    (1, b"\x22\x00\x03\x02\x01\x03", Ok(Heard::Known)),
    (1, b"\x22\x00\x03\x02\x01\x02", Err((13, 5))),
];

#[test]
fn each_refusal_in_order(rt: HostRuntime) -> Result<(), Fail> {
    let mut replica = ThreePhased::offering(0, &Takings::new(0, 0)?, DealtCoin::same(0))?;
    replica.check_cases(&rt, &IN_ORDER);
    Ok(())
}

#[test]
fn two_phases_have_no_third_votes(rt: HostRuntime) -> Result<(), Fail> {
    let mut replica = TwoPhased::offering(0, &Takings::new(0, 0)?, DealtCoin::same(0))?;
    let cases: [Case; 3] = [
        (1, b"\x22\x00\x03\x00\x00\x01", Err((7, 0))),
        (1, b"\x22\x00\x03\x02\x01\x03", Err((7, 0))),
        (1, b"\x30\x00\x03\x00\x01\x07", Err((7, 0))),
    ];
    replica.check_cases(&rt, &cases);
    Ok(())
}
