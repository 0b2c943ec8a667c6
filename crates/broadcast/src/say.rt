// What a replica has said of sheets, in the order of positions.
ghost use Rattle.std.specs.Prelude.{◌≡◌, ℕ, ◌+◌, ◌*◌, ◌<◌, ◌≤◌, length};
ghost use Rattle.std.specs.Option.{option_map};
ghost use Rattle.basis.specs.Refusals.{told};
ghost use Rattle.messages.specs.Writing.{on_sheet};
ghost use Rattle.slots.specs.Places.{all_places};
ghost use Rattle.broadcast.specs.Calls.{Running};
ghost use Rattle.broadcast.specs.Saying.{said_message_lem, at_or_after, earliest, next_said, say_answer, say_output};

use crate::calls::{are_large_enough, may_come};
use basis::member::Member;
use basis::refusal::{Reason, Refusal};
use messages::message::{Message, Phase};
use sheets::sheet::Sheet;
use slots::places::sheet_from;
use slots::slot::Slot;

// How many positions a tag has, and how many a slot under it.
pub const OF_TAG: u32 = 0x1_0000;

pub const OF_SLOT: u32 = 0x1000;

// How many slots under a tag lie wholly below a position, so that a search passes over them.
pub fn slots_below(from: u32, member: Member, tag: u8) -> u8
    ensures most { result ≤ member.n }
    ensures below { (k : ℕ) → k < result → (tag * 16 + k) * 4096 + 4096 ≤ from }
{
    let start = u32::from(tag) * OF_TAG;
    (from.saturating_sub(start) / OF_SLOT).min(u32::from(member.n)) as u8
}

// The sheets that a replica has recorded, of which those under its own number are said.
#[derive(Drop)]
pub struct Recorded<'a, S: Sheet> {
    pub member: Member,
    pub places: &'a [S::Row],
    ghost enough: { all_places member.n ≤ length places.now },
}

impl<S: Sheet> Recorded<'_, S> {
    // The message of a phase for a slot, if it is said.
    fn said_message(&self, phase: Phase, slot: u8) -> Option<Message<S>>
        requires { slot < self.now.member.n }
        ensures { option_map (on_sheet S.Sheet.bytes) result ≡ said_message_lem S.Sheet.rows self.now.member.n self.now.member.own self.now.places.now phase slot }
    {
        let Member { n, own } = self.member;
        if !may_come(phase, slot, own) {
            return None;
        }
        let sheet = sheet_from(self.places, n, phase, slot, own)?;
        Some(Message::Sheet { phase, slot, sheet })
    }

    // The same, if it stands at or after a position.
    fn message_from(&self, phase: Phase, slot: u8, from: u32) -> Option<Message<S>>
        requires { slot < self.now.member.n }
        ensures { option_map (on_sheet S.Sheet.bytes) result ≡ at_or_after from (said_message_lem S.Sheet.rows self.now.member.n self.now.member.own self.now.places.now phase slot) }
    {
        self.said_message(phase, slot)
            .filter(|message| message.position() >= from)
    }

    // The first message of a phase at or after a position, from the slot on that does not lie wholly below it.
    // A loop: with `find_map` the proof did not close.
    fn earliest_in(&self, phase: Phase, from: u32) -> Option<Message<S>>
        ensures { option_map (on_sheet S.Sheet.bytes) result ≡ earliest S.Sheet.rows self.now.member.n self.now.member.own self.now.places.now phase from self.now.member.n }
    {
        for slot in slots_below(from, self.member, phase.tag())..self.member.n {
            if let Some(message) = self.message_from(phase, slot, from) {
                return Some(message);
            }
        }
        None
    }

    // The first sheet message said at or after a position.
    pub fn next_message(&self, from: u32) -> Option<Message<S>>
        ensures { option_map (on_sheet S.Sheet.bytes) result ≡ next_said S.Sheet.rows self.now.member.n self.now.member.own self.now.places.now from }
    {
        let echo = || self.earliest_in(Phase::Echo, from);
        let ready = || self.earliest_in(Phase::Ready, from);
        self.earliest_in(Phase::Send, from)
            .or_else(echo)
            .or_else(ready)
    }
}

// Writes the first message said at or after a position and answers its position, or answers that none is left.
pub fn say<S: Sheet>(
    records: &[Slot],
    rounds: usize,
    places: &[S::Row],
    member: Member,
    from: u32,
    out: &mut [u8],
) -> Result<Option<u32>, Refusal>
    ensures answer { told result ≡ say_answer S.Sheet.rows member.n member.own from (record { life = Running; slots = (record { records = records.entry.now; places = places.now }); rounds = rounds }) out.old }
    ensures output { out.new ≡ say_output S.Sheet.rows member.n member.own from (record { life = Running; slots = (record { records = records.entry.now; places = places.now }); rounds = rounds }) out.old }
{
    if !are_large_enough(member.n, records.len(), rounds, places.len()) {
        return Err(Reason::TablesTooSmall.at(0));
    }
    let recorded = Recorded::<S> { member, places };
    let Some(message) = recorded.next_message(from) else {
        return Ok(None);
    };
    message.write(out)?;
    Ok(Some(message.position()))
}
