// Where the sheets of a slot stand, and looking through them.
ghost use Rattle.std.specs.Prelude.{◌≡◌, ℕ, ◌+◌, ◌*◌, ◌<◌, ◌≤◌, true, length, IfSome};
ghost use Rattle.std.specs.Option.{option_map};
ghost use Rattle.sheets.specs.Holds.{holds};
ghost use Rattle.slots.specs.Places.{place, all_places, recorded, tally, backed, lowest_backed, sheet_of};

use messages::message::Phase;
use sheets::rows::sheet_at;
use sheets::sheet::Sheet;

// The place of a sender's message of a phase in a slot.
#[tactic(auto, using(crate::proofs::Positions::place_within))]
pub fn place_of(n: u8, phase: Phase, slot: u8, sender: u8) -> usize
    ensures value { result ≡ place n phase slot sender }
    ensures within { slot < n → sender < n → result < all_places n }
{
    let base = usize::from(slot) * (2 * usize::from(n) + 1);
    match phase {
        Phase::Send => base,
        Phase::Echo => base + (1 + usize::from(sender)),
        Phase::Ready => base + (1 + usize::from(n) + usize::from(sender)),
    }
}

// How many sheet places a hall of n has.
pub fn places_in(n: u8) -> usize
    ensures { result ≡ all_places n }
{
    usize::from(n) * (2 * usize::from(n) + 1)
}

// The sheets of a slot, in the table of a hall of n.
#[derive(Drop)]
pub struct SlotSheets<'a, S: Sheet> {
    pub n: u8,
    pub slot: u8,
    pub places: &'a [S::Row],
    ghost low: { slot < n },
    ghost enough: { all_places n ≤ length places.now },
}

impl<S: Sheet> SlotSheets<'_, S> {
    // The sheet recorded of a sender, if any. That it is below n is a clause: a type of senders would name its table.
    pub fn sheet_from(&self, phase: Phase, sender: u8) -> Option<S>
        requires { sender < self.now.n }
        ensures { option_map S.Sheet.bytes result ≡ recorded S.Sheet.rows self.now.n self.now.places.now phase self.now.slot sender }
    {
        sheet_at(self.places, place_of(self.n, phase, self.slot, sender))
    }

    // Whether a sender has the sheet recorded.
    fn has_sheet(&self, phase: Phase, sender: u8, sheet: &S) -> bool
        requires { sender < self.now.n }
        ensures { result ≡ holds (S.Sheet.bytes sheet.now) (recorded S.Sheet.rows self.now.n self.now.places.now phase self.now.slot sender) }
    {
        sheet.is_in(&self.places[place_of(self.n, phase, self.slot, sender)])
    }

    // How many senders have the sheet recorded.
    #[tactic(auto, using(basis::proofs::Counts::count_yes, basis::proofs::Counts::count_no), unfolding(basis::specs::Counts::count))]
    pub fn count_senders(&self, phase: Phase, sheet: &S) -> u32
        ensures { result ≡ tally S.Sheet.rows self.now.n self.now.places.now phase self.now.slot (S.Sheet.bytes sheet.now) }
    {
        // the specification fixes this form: same sheets are counted by a loop over the slot's sheets with their sender
        let mut many = 0u32;
        for sender in 0..self.n {
            if self.has_sheet(phase, sender, sheet) {
                many += 1;
            }
        }
        many
    }

    // Whether so many senders have the sheet of this one.
    fn is_backed(&self, phase: Phase, least: u32, sender: u8) -> bool
        requires { sender < self.now.n }
        ensures { result ≡ backed S.Sheet.rows self.now.n self.now.places.now phase self.now.slot least sender }
    {
        let is_common = |sheet: S| self.count_senders(phase, &sheet) >= least;
        self.sheet_from(phase, sender).is_some_and(is_common)
    }

    // The lowest sender whose sheet so many have.
    pub fn leading_sender(&self, phase: Phase, least: u32) -> Option<u8>
        ensures value { result ≡ lowest_backed S.Sheet.rows self.now.n self.now.places.now phase self.now.slot least self.now.n }
        ensures within { IfSome result (λ j. (j < self.now.n) × (backed S.Sheet.rows self.now.n self.now.places.now phase self.now.slot least j ≡ true)) }
    {
        (0..self.n).find(|sender| self.is_backed(phase, least, *sender))
    }

    // That sender's sheet.
    pub(crate) fn leading_sheet(&self, phase: Phase, least: u32) -> Option<S>
        ensures { option_map S.Sheet.bytes result ≡ sheet_of S.Sheet.rows self.now.n self.now.places.now phase self.now.slot (lowest_backed S.Sheet.rows self.now.n self.now.places.now phase self.now.slot least self.now.n) }
    {
        let sender = self.leading_sender(phase, least)?;
        self.sheet_from(phase, sender)
    }
}

// The sheet recorded of a sender in a slot, if any.
// A function for one look at a table: with the struct it would be two lines at each call.
pub fn sheet_from<S: Sheet>(
    places: &[S::Row],
    n: u8,
    phase: Phase,
    slot: u8,
    sender: u8,
) -> Option<S>
    requires low { slot < n }
    requires below { sender < n }
    requires enough { all_places n ≤ length places.now }
    ensures { option_map S.Sheet.bytes result ≡ recorded S.Sheet.rows n places.now phase slot sender }
{
    SlotSheets { n, slot, places }.sheet_from(phase, sender)
}
