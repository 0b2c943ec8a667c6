// Where a message stands among all that a replica may say.
ghost use Rattle.std.specs.Prelude.{◌≡◌};
ghost use Rattle.messages.specs.Tags.{kind_tag, kind_shape};
ghost use Rattle.messages.specs.Writing.{tag_of, slot_of, round_of, value_of, shape_of_message, position};
ghost use Rattle.messages.specs.Reading.{PositionsApart};

use crate::message::{Kind, Message};
use basis::hall::SLOTS;

// How many rounds a position counts for each slot, and how many values for each round.
const ROUNDS: u32 = 16;

const VALUES: u32 = 256;

impl<P> Message<P> {
    pub fn kind(&self) -> Kind
        ensures tag { kind_tag result ≡ tag_of self.now }
        ensures shape { kind_shape result ≡ shape_of_message self.now }
    {
        match self {
            Message::Sheet { phase, .. } => Kind::Sheet(*phase),
            Message::Bit { vote, .. } => Kind::Bit(*vote),
            Message::Set { tag, .. } => Kind::Set(*tag),
            Message::Share { .. } => Kind::Share,
        }
    }

    pub fn tag(&self) -> u8
        ensures { result ≡ tag_of self.now }
    {
        self.kind().tag()
    }

    pub fn slot(&self) -> u8
        ensures { result ≡ slot_of self.now }
    {
        match self {
            Message::Sheet { slot, .. }
            | Message::Bit { slot, .. }
            | Message::Set { slot, .. }
            | Message::Share { slot, .. } => *slot,
        }
    }

    // The round; 0 for a sheet message.
    pub fn round(&self) -> u8
        ensures { result ≡ round_of self.now }
    {
        match self {
            Message::Sheet { .. } => 0,
            Message::Bit { round, .. }
            | Message::Set { round, .. }
            | Message::Share { round, .. } => *round,
        }
    }

    // The number of the bit, set or share; 0 for a sheet message.
    pub fn value(&self) -> u8
        ensures { result ≡ value_of self.now }
    {
        match self {
            Message::Sheet { .. } => 0,
            Message::Bit { bit, .. } => u8::from(*bit),
            Message::Set { bits, .. } => u8::from(*bits),
            Message::Share { share, .. } => *share,
        }
    }

    // Positions count by tag, then slot, round and value. Lawful messages at one position differ in their sheets at most.
    pub fn position(&self) -> u32
        ensures value { result ≡ position self.now }
        ensures apart { PositionsApart }
    {
        let of_slot = u32::from(self.tag()) * u32::from(SLOTS) + u32::from(self.slot());
        let of_round = of_slot * ROUNDS + u32::from(self.round());
        of_round * VALUES + u32::from(self.value())
    }
}
