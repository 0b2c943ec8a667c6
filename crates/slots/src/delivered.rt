// What is delivered, and how much.
ghost use Rattle.std.specs.Prelude.{◌≡◌, ◌<◌, ◌≤◌, length, is_some, slice_index_or};
ghost use Rattle.std.specs.Option.{option_map};
ghost use Rattle.basis.specs.Counts.{count};
ghost use Rattle.messages.specs.declared.message.Phase.TheVariants.{Ready};
ghost use Rattle.slots.specs.Places.{sheet_of};
ghost use Rattle.slots.specs.Steps.{cleared, delivered_sheet_lem};

use crate::places::place_of;
use crate::slot::Slot;
use messages::message::Phase;
use sheets::sheet::Sheet;

// The sheet that a slot's record says is delivered, if any.
pub fn sheet_of_slot<S: Sheet>(row: Slot, places: &[S::Row], n: u8, slot: u8) -> Option<S>
    ensures { option_map S.Sheet.bytes result ≡ sheet_of S.Sheet.rows n places.now Ready slot row.delivered }
{
    let place = places.get(place_of(n, Phase::Ready, slot, row.delivered?))?;
    S::from_row(*place)
}

// The sheet that is delivered for a slot, if any.
// It takes n and own, and no Member: a listed n would ask more of callers.
pub fn delivered_sheet<S: Sheet>(
    records: &[Slot],
    places: &[S::Row],
    n: u8,
    own: u8,
    slot: u8,
) -> Option<S>
    ensures { option_map S.Sheet.bytes result ≡ delivered_sheet_lem S.Sheet.rows n own slot (record { records = records.entry.now; places = places.now }) }
{
    sheet_of_slot(*records.get(usize::from(slot))?, places, n, slot)
}

// Whether a slot is delivered.
pub fn is_delivered(records: &[Slot], slot: u8) -> bool
    requires { slot < length records.now }
    ensures { result ≡ is_some (slice_index_or records.now slot cleared).delivered }
{
    records[usize::from(slot)].delivered.is_some()
}

// How many of the n slots are delivered.
pub fn count_deliveries(records: &[Slot], n: u8) -> u32
    requires { n ≤ length records.now }
    ensures { result ≡ count n (λ k. is_some (slice_index_or records.now k cleared).delivered) }
{
    records[..usize::from(n)]
        .iter()
        .filter(|record| record.delivered.is_some())
        .count() as u32
}
