// The calls of a replica, as far as sheets go: what each answers and leaves.
ghost use Rattle.std.specs.Prelude.{◌≡◌, ℕ, ◌*◌, ◌<◌, ◌≤◌, true, not, ◌&&◌, length, ◌==◌, nat_lt};
ghost use Rattle.basis.specs.Refusals.{told};
ghost use Rattle.std.specs.Option.{option_map};
ghost use Rattle.sheets.specs.Holds.{holds};
ghost use Rattle.slots.specs.Places.{all_places};
ghost use Rattle.slots.specs.Steps.{noted, settled};
ghost use Rattle.broadcast.specs.Calls.{fits_hall, may_send, compared, sheet_answer, if_new, Running, hear_answer, hear_after, of_hall, large_enough, look_after};
ghost use Rattle.messages.specs.Reading.{syntax};

use basis::heard::Heard;
use basis::member::Member;
use basis::refusal::{Reason, Refusal};
use messages::message::{Message, Phase};
use messages::read::read;
use messages::tags::{Format, VoteTags};
use sheets::rows::put_sheet;
use sheets::sheet::Sheet;
use slots::places::{place_of, places_in};
use slots::slot::Slot;
use slots::steps::settle;

// How many rounds have a record for each slot.
pub const ROUNDS: usize = 15;

// Whether the tables are large enough for a hall of n: n records, 15n round records and n(2n + 1) places.
pub fn are_large_enough(n: u8, records: usize, rounds: usize, places: usize) -> bool
    ensures { result ≡ fits_hall n records rounds places }
{
    (usize::from(n) <= records) & (ROUNDS * usize::from(n) <= rounds) & (places_in(n) <= places)
}

// Whether a message of a phase for a slot may come from a sender: a send comes from its slot's replica.
pub fn may_come(phase: Phase, slot: u8, sender: u8) -> bool
    ensures { result ≡ may_send phase slot sender }
{
    match phase {
        Phase::Send => slot == sender,
        Phase::Echo | Phase::Ready => true,
    }
}

// What hearing a sheet comes to, by what the row of its sender holds: nothing, the same, or another.
pub fn compare<S: Sheet>(row: S::Row, sheet: &S) -> Result<Heard, Refusal>
    ensures { told result ≡ compared (S.Sheet.rows.held row) (S.Sheet.bytes sheet.now) }
{
    match S::from_row(row) {
        None => Ok(Heard::New),
        Some(_) if sheet.is_in(&row) => Ok(Heard::Known),
        Some(_) => Err(Reason::Contradiction.at(4)),
    }
}

// Hears a sheet message: its sender may send it, nothing else is recorded; it is recorded, and the steps of its slot
// are taken. The parts of the message are parameters: a struct of them would be taken apart at once; and
// the tables, as in all calls.
pub fn hear_sheet<S: Sheet>(
    records: &mut [Slot],
    places: &mut [S::Row],
    member: Member,
    sender: u8,
    phase: Phase,
    slot: u8,
    sheet: &S,
) -> Result<Heard, Refusal>
    requires slot { slot < member.n }
    requires sender { sender < member.n }
    requires records { member.n ≤ length records.old }
    requires places { all_places member.n ≤ length places.old }
    ensures answer { told result ≡ sheet_answer S.Sheet.rows member.n sender (record { records = records.entry.now; places = places.old }) phase slot (S.Sheet.bytes sheet.now) }
    ensures left { record { records = records.exit.now; places = places.new } ≡ if_new (sheet_answer S.Sheet.rows member.n sender (record { records = records.entry.now; places = places.old }) phase slot (S.Sheet.bytes sheet.now)) (settled S.Sheet.rows member.n member.own slot 3 (noted S.Sheet.rows member.n member.own slot phase sender (record { records = records.entry.now; places = places.old }) (S.Sheet.bytes sheet.now))) (record { records = records.entry.now; places = places.old }) }
{
    if !may_come(phase, slot, sender) {
        return Err(Reason::SendNotFromSlot.at(3));
    }
    let at = place_of(member.n, phase, slot, sender);
    let heard = compare(places[at], sheet)?;
    if heard == Heard::New {
        put_sheet(places, at, sheet);
        settle::<S>(records, places, member.n, member.own, slot);
    }
    Ok(heard)
}

// The same for the bytes of a lawful sheet, as they stand in a packet.
pub fn take_sheet<S: Sheet>(
    records: &mut [Slot],
    places: &mut [S::Row],
    member: Member,
    sender: u8,
    phase: Phase,
    slot: u8,
    bytes: &[u8],
) -> Result<Heard, Refusal>
    requires slot { slot < member.n }
    requires sender { sender < member.n }
    requires records { member.n ≤ length records.old }
    requires places { all_places member.n ≤ length places.old }
    requires lawful { S.Sheet.lawful bytes.now ≡ true }
    ensures answer { told result ≡ sheet_answer S.Sheet.rows member.n sender (record { records = records.entry.now; places = places.old }) phase slot bytes.now }
    ensures left { record { records = records.exit.now; places = places.new } ≡ if_new (sheet_answer S.Sheet.rows member.n sender (record { records = records.entry.now; places = places.old }) phase slot bytes.now) (settled S.Sheet.rows member.n member.own slot 3 (noted S.Sheet.rows member.n member.own slot phase sender (record { records = records.entry.now; places = places.old }) bytes.now)) (record { records = records.entry.now; places = places.old }) }
{
    let sheet = S::decode(bytes).unwrap();
    hear_sheet(records, places, member, sender, phase, slot, &sheet)
}

// Whether a sender is another replica of the hall.
pub fn is_another(member: Member, sender: u8) -> bool
    ensures { result ≡ (nat_lt sender member.n && not (sender == member.own)) }
{
    (sender < member.n) & (sender != member.own)
}

// Hears a packet from a sender: the checks in their order, then the message is recorded and its slot's steps are taken.
pub fn hear<S: Sheet>(
    records: &mut [Slot],
    rounds: usize,
    places: &mut [S::Row],
    member: Member,
    tags: VoteTags,
    shares: bool,
    sender: u8,
    packet: &[u8],
) -> Result<Heard, Refusal>
    ensures answer { told result ≡ hear_answer S.Sheet.rows (syntax S.Sheet.LEN S.Sheet.lawful (record { n = member.n; tags = tags; shares = shares })) member.own sender packet.now (record { life = Running; slots = (record { records = records.entry.now; places = places.old }); rounds = rounds }) }
    ensures left { record { records = records.exit.now; places = places.new } ≡ (hear_after S.Sheet.rows (syntax S.Sheet.LEN S.Sheet.lawful (record { n = member.n; tags = tags; shares = shares })) member.own sender packet.now (record { life = Running; slots = (record { records = records.entry.now; places = places.old }); rounds = rounds })).slots }
{
    if !are_large_enough(member.n, records.len(), rounds, places.len()) {
        return Err(Reason::TablesTooSmall.at(0));
    }
    if !is_another(member, sender) {
        return Err(Reason::SenderNotAnother.at(0));
    }
    let format = Format {
        n: member.n,
        tags,
        shares,
    };
    match read::<S>(packet, format)? {
        Message::Sheet { phase, slot, sheet } => take_sheet::<S>(
            records,
            places,
            member,
            sender,
            phase,
            slot,
            sheet.bytes,
        ),
        _ => Err(Reason::TagNotUsed.at(0)),
    }
}

// Takes the steps of every slot, the lowest first.
#[tactic(auto, using(crate::proofs::Heard::looked_more), unfolding(crate::specs::Calls::looked))]
pub fn look<S: Sheet>(
    records: &mut [Slot],
    rounds: usize,
    places: &mut [S::Row],
    member: Member,
) -> Result<(), Refusal>
    ensures answer { told result ≡ large_enough (of_hall member.n S.Sheet.LEN S.Sheet.lawful) (record { life = Running; slots = (record { records = records.entry.now; places = places.old }); rounds = rounds }) }
    ensures left { record { records = records.exit.now; places = places.new } ≡ (look_after S.Sheet.rows (of_hall member.n S.Sheet.LEN S.Sheet.lawful) member.own (record { life = Running; slots = (record { records = records.entry.now; places = places.old }); rounds = rounds })).slots }
{
    if !are_large_enough(member.n, records.len(), rounds, places.len()) {
        return Err(Reason::TablesTooSmall.at(0));
    }
    for slot in 0..member.n {
        settle::<S>(records, places, member.n, member.own, slot);
    }
    Ok(())
}
