// The steps that replica 0 of four takes on what it hears, seen by what it has then said.
use crate::replicas::{ThreePhased, Turn, proposed, sheet_message};
use coins::dealt::DealtCoin;
use sheets::kinds::Takings;
use std::test::Fail;

// Replica 0 that has proposed, with a coin that shows 0.
fn proposed_with_zeros() -> Result<ThreePhased, Fail> {
    proposed(DealtCoin::same(0))
}

#[test]
fn readies_and_echoes_make_a_ready(rt: HostRuntime) -> Result<(), Fail> {
    let mut replica = ThreePhased::offering(0, &Takings::new(0, 0)?, DealtCoin::same(0))?;
    for (sender, tag, slot, said) in [
        (1, 0x12, 3, false),
        (2, 0x12, 3, true),
        (1, 0x11, 2, false),
        (2, 0x11, 2, false),
        (3, 0x11, 2, true),
    ] {
        let heard = replica.hear(sender, &sheet_message(tag, slot));
        assert!(rt; heard.is_ok());
        assert_eq!(rt; replica.has_said(0x120000 + 4096 * u32::from(slot)), said);
    }
    let [_, _, two, three, ..] = replica.tables.records;
    assert_eq!(rt; two.slot.delivered, None);
    assert_eq!(rt; three.slot.delivered, Some(0));
    Ok(())
}

#[test]
fn the_third_delivery_proposes(rt: HostRuntime) -> Result<(), Fail> {
    let replica = proposed_with_zeros()?;
    for position in [
        0x200001, 0x201001, 0x202001, 0x203000, 0x210001, 0x211001, 0x212001,
    ] {
        assert!(rt; replica.has_said(position));
    }
    for position in [0x203001, 0x213000, 0x213001, 0x200101] {
        assert!(rt; !replica.has_said(position));
    }
    Ok(())
}

// With its own three second votes for 1: it decides 1 and enters round 1 with 1.
#[test]
fn proposed_1_decides_1(rt: HostRuntime) -> Result<(), Fail> {
    let mut replica = proposed_with_zeros()?;
    let turns: [Turn; 2] = [
        (1, b"\x21\x00\x03\x00\x00\x01", 0x200101, false),
        (2, b"\x21\x00\x03\x00\x00\x01", 0x200101, true),
    ];
    replica.check_turns(&rt, &turns);
    let [zero, one, ..] = replica.tables.records;
    assert_eq!(rt; zero.ballot.decided, Some(true));
    assert_eq!(rt; one.ballot.decided, None);
    Ok(())
}

#[test]
fn proposed_0_joins_two_first_votes_1(rt: HostRuntime) -> Result<(), Fail> {
    let mut replica = proposed_with_zeros()?;
    let turns: [Turn; 2] = [
        (1, b"\x20\x00\x03\x03\x00\x01", 0x203001, false),
        (2, b"\x20\x00\x03\x03\x00\x01", 0x203001, true),
    ];
    replica.check_turns(&rt, &turns);
    assert!(rt; replica.has_said(0x213001));
    Ok(())
}

// Delivered late, it says first vote 1 and no second vote; one first vote of another admits 1.
#[test]
fn proposed_0_delivers_late(rt: HostRuntime) -> Result<(), Fail> {
    let mut replica = proposed_with_zeros()?;
    let _ = replica.hear(1, &sheet_message(0x12, 3));
    let _ = replica.hear(2, &sheet_message(0x12, 3));
    assert!(rt; replica.has_said(0x203001));
    assert!(rt; !replica.has_said(0x213001));
    let turns: [Turn; 1] = [(1, b"\x20\x00\x03\x03\x00\x01", 0x213001, true)];
    replica.check_turns(&rt, &turns);
    Ok(())
}

// Ballot 3 enters round 1 with 0, ends it by third votes {0}, and the coin's bit 0 decides 0.
#[test]
fn a_round_of_three_phases_decides_0(rt: HostRuntime) -> Result<(), Fail> {
    let mut replica = proposed_with_zeros()?;
    let turns: [Turn; 10] = [
        (1, b"\x20\x00\x03\x03\x00\x00", 0x213000, false),
        (2, b"\x20\x00\x03\x03\x00\x00", 0x213000, true),
        (1, b"\x21\x00\x03\x03\x00\x00", 0x203100, false),
        (2, b"\x21\x00\x03\x03\x00\x00", 0x203100, true),
        (1, b"\x20\x00\x03\x03\x01\x00", 0x213100, false),
        (2, b"\x20\x00\x03\x03\x01\x00", 0x213100, true),
        (1, b"\x21\x00\x03\x03\x01\x00", 0x223101, false),
        (2, b"\x21\x00\x03\x03\x01\x00", 0x223101, true),
        (1, b"\x22\x00\x03\x03\x01\x01", 0x203200, false),
        (2, b"\x22\x00\x03\x03\x01\x01", 0x203200, true),
    ];
    replica.check_turns(&rt, &turns);
    let [_, _, _, three, ..] = replica.tables.records;
    assert_eq!(rt; three.ballot.decided, Some(false));
    Ok(())
}
