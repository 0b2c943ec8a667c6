// What a message is. A sheet message holds a sheet to be written, or the part of a packet where one was read.
ghost use Rattle.std.specs.Prelude.{Some};
ghost use Rattle.messages.specs.Words.{phase_word};

use std::fmt;

// The three messages of the sheet broadcast, with their tags.
#[derive(Clone, Copy, PartialEq, Eq, Debug)]
pub enum Phase {
    Send = 0x10,
    Echo = 0x11,
    Ready = 0x12,
}

// Its word in scripts and output.
impl fmt::Display for Phase {
    ghost output = { λ phase. Some (phase_word phase) };

    fn fmt<W: fmt::Write>(&self, f: &mut fmt::Formatter<W>) -> fmt::Result {
        f.write_str(match self {
            Phase::Send => "send",
            Phase::Echo => "echo",
            Phase::Ready => "ready",
        })
    }
}

// The two votes that carry one bit, with their tags.
#[derive(Clone, Copy, PartialEq, Eq, Debug)]
pub enum Vote {
    First = 0x20,
    Second = 0x21,
}

// A set of bits that is not empty, with its number in a message.
#[derive(Clone, Copy, PartialEq, Eq, Debug)]
pub enum BitSet {
    Zero = 1,
    One = 2,
    Both = 3,
}

// A message with a sheet of type P. A slot is the place of one replica's sheet, and of the ballot on it. The tag of a
// set is a number, since a round rule draws it from an open range.
#[derive(Clone, Copy, PartialEq, Eq, Debug)]
pub enum Message<P> {
    Sheet {
        phase: Phase,
        slot: u8,
        sheet: P,
    },
    Bit {
        vote: Vote,
        slot: u8,
        round: u8,
        bit: bool,
    },
    Set {
        tag: u8,
        slot: u8,
        round: u8,
        bits: BitSet,
    },
    Share {
        slot: u8,
        round: u8,
        share: u8,
    },
}

// A part of a packet, uncopied, with the place where it begins.
#[derive(Clone, Copy, PartialEq, Eq, Debug)]
pub struct Part<'a> {
    pub at: usize,
    pub bytes: &'a [u8],
}

// How a message goes on after its tag and length.
#[derive(Clone, Copy, PartialEq, Eq, Debug)]
pub enum Shape {
    Sheet,
    Bit,
    Set,
    Share,
}

// What kind of message a tag begins. A set has its tag as a number, since a rule draws it from an open range.
#[derive(Clone, Copy, PartialEq, Eq, Debug)]
pub enum Kind {
    Sheet(Phase),
    Bit(Vote),
    Set(u8),
    Share,
}
