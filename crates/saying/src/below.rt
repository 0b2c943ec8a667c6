// How much at the start lies wholly below a position, so that a search passes over it: tags and rounds. Slots are counted
// by `broadcast`.
ghost use Rattle.std.specs.Prelude.{ℕ, ◌+◌, ◌*◌, ◌<◌, ◌≤◌};

use broadcast::say::{OF_SLOT, OF_TAG};

// How many positions a round has.
const OF_ROUND: u32 = 0x100;

// The lowest position above those of all sheet messages.
pub const AFTER_SHEETS: u32 = 0x13_0000;

// The lowest tag of a vote.
pub const FIRST_TAG: u8 = 0x20;

// How many tags of votes there may be.
pub const TAGS: u8 = 16;

// How many rounds a ballot has.
pub const ROUNDS: u8 = 16;

// Of the tags of votes.
pub fn tags_below(from: u32) -> u8
    ensures most { result ≤ 16 }
    ensures below { (i : ℕ) → i < result → (32 + i) * 65536 + 65536 ≤ from }
{
    let start = u32::from(FIRST_TAG) * OF_TAG;
    (from.saturating_sub(start) / OF_TAG).min(u32::from(TAGS)) as u8
}

// Of the rounds of a slot under a tag.
pub fn rounds_below(from: u32, tag: u8, slot: u8) -> u8
    ensures most { result ≤ 16 }
    ensures below { (r : ℕ) → r < result → ((tag * 16 + slot) * 16 + r) * 256 + 256 ≤ from }
{
    let start = u32::from(tag) * OF_TAG + u32::from(slot) * OF_SLOT;
    (from.saturating_sub(start) / OF_ROUND).min(u32::from(ROUNDS)) as u8
}
