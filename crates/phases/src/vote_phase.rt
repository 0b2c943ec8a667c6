// The phases of votes, and the tags that their votes bear.
ghost use Rattle.std.specs.Prelude.{◌≡◌};
ghost use Rattle.phases.specs.Phases.{tag_of, NamesPhase};

// First, second and third votes, with their tags. A type beside `Vote`, which has the two that one bit can go with.
#[derive(Clone, Copy, PartialEq, Eq, Debug)]
pub enum VotePhase {
    First = 0x20,
    Second = 0x21,
    Third = 0x22,
}

// A tag that no phase's votes bear.
#[derive(Clone, Copy, PartialEq, Eq, Debug)]
pub struct NoVotePhase(pub u8);

impl VotePhase {
    // The tag, by the name that it has at a message.
    pub fn tag(self) -> u8
        ensures { result ≡ tag_of self }
    {
        self as u8
    }
}

impl TryFrom<u8> for VotePhase {
    type Error = NoVotePhase;

    ghost try_from_gives = { NamesPhase };

    fn try_from(tag: u8) -> Result<VotePhase, NoVotePhase> {
        match tag {
            0x20 => Ok(VotePhase::First),
            0x21 => Ok(VotePhase::Second),
            0x22 => Ok(VotePhase::Third),
            _ => Err(NoVotePhase(tag)),
        }
    }
}
