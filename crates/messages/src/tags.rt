// Tags: the first byte of a message says its shape.
ghost use Rattle.std.specs.Prelude.{◌≡◌, ℕ, ◌&&◌, ◌||◌, ◌==◌, IfSome};
ghost use Rattle.std.specs.Option.{option_map};
ghost use Rattle.messages.specs.Tags.{phase_tag, phase_of_lem, vote_tag, vote_of, bits_number, NumbersBits, kind_shape, kind_tag, uses, is_set_tag, shape_at, basic_tags, with_tag};

use crate::message::{BitSet, Kind, Phase, Shape, Vote};
use basis::replicas::{contains, with};

// The tag of a share.
pub const SHARE: u8 = 0x30;

// The vote tags that a round rule uses: always 0x20 and 0x21, and those from 0x22 to 0x2F whose bit is set,
// bit i from the lowest standing for tag 0x20 + i.
#[derive(Clone, Copy, PartialEq, Eq, Debug)]
pub struct VoteTags {
    mask: u16,
}

// What a reading depends on besides the kind of sheet: the hall size, the rule's tags, and whether the coin uses shares.
#[derive(Clone, Copy, PartialEq, Eq, Debug)]
pub struct Format {
    pub n: u8,
    pub tags: VoteTags,
    pub shares: bool,
}

impl VoteTags {
    // The tags of the first and second vote alone.
    pub fn basic() -> VoteTags
        ensures value { result ≡ basic_tags }
        ensures names { (t : ℕ) → uses result t ≡ (t == 32) || t == 33 }
    {
        VoteTags { mask: 0 }
    }

    // These tags and one more from 0x22 to 0x2F; any other number adds nothing. A number, since rules draw their tags
    // from an open range.
    pub fn and(self, tag: u8) -> VoteTags
        ensures value { result ≡ with_tag self tag }
        ensures names { (t : ℕ) → uses result t ≡ uses self t || (is_set_tag t && t == tag) }
    {
        match tag {
            0x22..=0x2f => VoteTags {
                mask: with(self.mask, tag - 0x20),
            },
            _ => self,
        }
    }

    // Whether a tag is among them.
    pub fn includes(self, tag: u8) -> bool
        ensures { result ≡ uses self tag }
    {
        match tag {
            0x20 | 0x21 => true,
            t @ 0x22..=0x2f => contains(self.mask, t - 0x20),
            _ => false,
        }
    }
}

impl Kind {
    // The kind by its tag, or none where the tag is not used; no `TryFrom`, since the format says which are.
    pub fn of(tag: u8, format: Format) -> Option<Kind>
        ensures shape { option_map kind_shape result ≡ shape_at (uses format.tags) format.shares tag }
        ensures tag { IfSome result (λ k. kind_tag k ≡ tag) }
    {
        match tag {
            0x10..=0x12 => Some(Kind::Sheet(Phase::of(tag))),
            0x20 | 0x21 => Some(Kind::Bit(Vote::of(tag))),
            t @ 0x22..=0x2f if format.tags.includes(t) => Some(Kind::Set(t)),
            SHARE if format.shares => Some(Kind::Share),
            _ => None,
        }
    }

    pub fn tag(self) -> u8
        ensures { result ≡ kind_tag self }
    {
        match self {
            Kind::Sheet(phase) => phase.tag(),
            Kind::Bit(vote) => vote.tag(),
            Kind::Set(tag) => tag,
            Kind::Share => SHARE,
        }
    }

    // How a message of the kind goes on after its tag and length.
    pub fn shape(self) -> Shape
        ensures { result ≡ kind_shape self }
    {
        match self {
            Kind::Sheet(_) => Shape::Sheet,
            Kind::Bit(_) => Shape::Bit,
            Kind::Set(_) => Shape::Set,
            Kind::Share => Shape::Share,
        }
    }
}

// `tag` by the name that it has at a whole message; `of` for a tag that is known to be of a phase, or of a vote: `TryFrom`
// would have an error that no caller could meet.
impl Phase {
    pub fn tag(self) -> u8
        ensures { result ≡ phase_tag self }
    {
        self as u8
    }

    pub fn of(tag: u8) -> Phase
        ensures { result ≡ phase_of_lem tag }
    {
        match tag {
            0x10 => Phase::Send,
            0x11 => Phase::Echo,
            _ => Phase::Ready,
        }
    }
}

impl Vote {
    pub fn tag(self) -> u8
        ensures { result ≡ vote_tag self }
    {
        self as u8
    }

    pub fn of(tag: u8) -> Vote
        ensures { result ≡ vote_of tag }
    {
        match tag {
            0x20 => Vote::First,
            _ => Vote::Second,
        }
    }
}

// A number that names no set of bits.
#[derive(Clone, Copy, PartialEq, Eq, Debug)]
pub struct NoBitSet(pub u8);

impl From<BitSet> for u8 {
    ghost from_gives = { λ bits r. r ≡ bits_number bits };

    fn from(bits: BitSet) -> u8 {
        bits as u8
    }
}

impl TryFrom<u8> for BitSet {
    type Error = NoBitSet;

    ghost try_from_gives = { NumbersBits };

    fn try_from(number: u8) -> Result<BitSet, NoBitSet> {
        match number {
            1 => Ok(BitSet::Zero),
            2 => Ok(BitSet::One),
            3 => Ok(BitSet::Both),
            _ => Err(NoBitSet(number)),
        }
    }
}
