// The steps of a slot: echo, ready, deliver, each once if it applies.
ghost use Rattle.std.specs.Prelude.{◌≡◌, ◌<◌, ◌≤◌, length};
ghost use Rattle.std.specs.Option.{option_map};
ghost use Rattle.basis.specs.Halls.{quorum};
ghost use Rattle.messages.specs.declared.message.Phase.TheVariants.{Ready};
ghost use Rattle.slots.specs.Places.{all_places, recorded, lowest_backed, to_ready};
ghost use Rattle.slots.specs.Steps.{unless, said_due, marked_slot, settled, SettledIn};

use crate::places::{SlotSheets, place_of, sheet_from};
use crate::slot::Slot;
use basis::hall::{honest_size, quorum_size};
use messages::message::Phase;
use sheets::rows::put_sheet;
use sheets::sheet::Sheet;

// Says the due sheet, if there is one and none of that phase is said.
// The table and its numbers are parameters: a struct that lends it has to say in each clause that it keeps them.
fn say_due<S: Sheet>(places: &mut [S::Row], n: u8, own: u8, phase: Phase, slot: u8, due: Option<S>)
    requires low { slot < n }
    requires below { own < n }
    requires enough { all_places n ≤ length places.old }
    ensures { places.new ≡ said_due S.Sheet.rows n own slot phase places.old (unless (recorded S.Sheet.rows n places.old phase slot own) (option_map S.Sheet.bytes due)) }
{
    if sheet_from::<S>(places, n, phase, slot, own).is_some() {
        return;
    }
    if let Some(sheet) = due {
        put_sheet(places, place_of(n, phase, slot, own), &sheet);
    }
}

// The sheet that is to be readied: one with 2f + 1 echoes, or else with f + 1 readies.
fn sheet_to_ready<S: Sheet>(sheets: &SlotSheets<'_, S>) -> Option<S>
    ensures { option_map S.Sheet.bytes result ≡ to_ready S.Sheet.rows sheets.now.n sheets.now.places.now sheets.now.slot }
{
    let readied = || sheets.leading_sheet(Phase::Ready, honest_size(sheets.n));
    sheets
        .leading_sheet(Phase::Echo, quorum_size(sheets.n))
        .or_else(readied)
}

// The sheet that is to be readied, where no ready is said: where one is, nothing is counted.
fn ready_to_say<S: Sheet>(places: &[S::Row], n: u8, own: u8, slot: u8) -> Option<S>
    requires low { slot < n }
    requires below { own < n }
    requires enough { all_places n ≤ length places.now }
    ensures { option_map S.Sheet.bytes result ≡ unless (recorded S.Sheet.rows n places.now Ready slot own) (to_ready S.Sheet.rows n places.now slot) }
{
    if sheet_from::<S>(places, n, Phase::Ready, slot, own).is_some() {
        return None;
    }
    sheet_to_ready(&SlotSheets { n, slot, places })
}

// Marks the slot as delivered, if 2f + 1 are ready of one sheet and it is not delivered yet.
fn deliver<S: Sheet>(row: &mut Slot, sheets: &SlotSheets<'_, S>)
    ensures { row.new ≡ marked_slot row.old (unless row.old.delivered (lowest_backed S.Sheet.rows sheets.now.n sheets.now.places.now Ready sheets.now.slot (quorum sheets.now.n) sheets.now.n)) }
{
    if row.delivered.is_some() {
        return;
    }
    let leading = sheets.leading_sender(Phase::Ready, quorum_size(sheets.n));
    if leading.is_some() {
        *row = Slot { delivered: leading };
    }
}

// Takes the steps of a slot while one applies: each once, in their order, since none lets an earlier one apply.
// The slot's record is lent alone, in whatever table it stands. n and own are no Member: a listed n would ask more of
// callers. The places are a parameter, as at `say_due`.
pub fn settle_slot<S: Sheet>(row: &mut Slot, places: &mut [S::Row], n: u8, own: u8, slot: u8)
    requires low { slot < n }
    requires below { own < n }
    requires enough { all_places n ≤ length places.old }
    ensures { SettledIn S.Sheet.rows n own slot row.old row.new places.old places.new }
{
    let send = sheet_from::<S>(places, n, Phase::Send, slot, own);
    say_due(places, n, own, Phase::Echo, slot, send);
    let ready = ready_to_say::<S>(places, n, own, slot);
    say_due(places, n, own, Phase::Ready, slot, ready);
    let sheets = SlotSheets::<S> {
        n,
        slot,
        places: &*places,
    };
    deliver(row, &sheets);
}

// The same for a slot's record in a table of them.
pub fn settle<S: Sheet>(records: &mut [Slot], places: &mut [S::Row], n: u8, own: u8, slot: u8)
    requires low { slot < n }
    requires below { own < n }
    requires each { n ≤ length records.old }
    requires enough { all_places n ≤ length places.old }
    ensures { record { records = records.exit.now; places = places.new } ≡ settled S.Sheet.rows n own slot 3 (record { records = records.entry.now; places = places.old }) }
{
    settle_slot::<S>(&mut records[usize::from(slot)], places, n, own, slot);
}
