// Edges of messages: packets that end early or late, and a third vote of round 0.
ghost use Rattle.std.specs.Prelude.{◌≡◌, true, false};
ghost use Rattle.basis.specs.Refusals.{refused};
ghost use Rattle.messages.specs.Reading.{plain};
ghost use Rattle.messages.specs.Tags.{uses};

use basis::refusal::Refusal;
use messages::message::{Message, Part};
use messages::read::read;
use messages::tags::{Format, VoteTags};
use sheets::kinds::Takings;

// A hall of four under the two-phase rule and a coin without shares.
fn two_phase() -> Format
    ensures n { result.n ≡ 4 }
    ensures third { uses result.tags 34 ≡ false }
    ensures shares { result.shares ≡ false }
{
    Format {
        n: 4,
        tags: VoteTags::basic(),
        shares: false,
    }
}

// The same under the three-phase rule.
fn three_phase() -> Format
    ensures n { result.n ≡ 4 }
    ensures third { uses result.tags 34 ≡ true }
    ensures shares { result.shares ≡ false }
{
    Format {
        n: 4,
        tags: VoteTags::basic().and(0x22),
        shares: false,
    }
}

// An empty packet gives 6 at 0.
pub fn empty_packet() -> Result<Message<Part<'static>>, Refusal>
    ensures { plain result ≡ refused 6 0 }
{
    read::<Takings>(b"", three_phase())
}

// 20 00 03 00 00 01 00 has a byte too many: 6 at 6.
pub fn surplus_byte() -> Result<Message<Part<'static>>, Refusal>
    ensures { plain result ≡ refused 6 6 }
{
    read::<Takings>(b"\x20\x00\x03\x00\x00\x01\x00", three_phase())
}

// 22 00 03 00 00 01, a third vote of round 0, gives 10 at 4 under the three-phase rule.
pub fn third_vote_of_round_0() -> Result<Message<Part<'static>>, Refusal>
    ensures { plain result ≡ refused 10 4 }
{
    read::<Takings>(b"\x22\x00\x03\x00\x00\x01", three_phase())
}

// Under the two-phase rule the same bytes give 7 at 0.
pub fn third_vote_not_used() -> Result<Message<Part<'static>>, Refusal>
    ensures { plain result ≡ refused 7 0 }
{
    read::<Takings>(b"\x22\x00\x03\x00\x00\x01", two_phase())
}
