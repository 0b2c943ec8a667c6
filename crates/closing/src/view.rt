// What close, list and record look at in a replica's tables.
ghost use Rattle.std.specs.Prelude.{◌≡◌, ℕ, ◌<◌, ◌≤◌, length, None};
ghost use Rattle.std.specs.Option.{option_map};
ghost use Rattle.slots.specs.Places.{all_places};
ghost use Rattle.outcomes.specs.Tables.{viewed};
ghost use Rattle.outcomes.specs.Closing.{lowest, is_undecided, is_decided_in, sheet_of_slot, is_missing, listed_sheet, is_listed};

use basis::member::Member;
use outcomes::opening_record::OpeningRecord;
use sheets::sheet::Sheet;
use slots::delivered;

// The tables of a replica, of the round records their number alone; large enough for its hall.
#[derive(Drop)]
pub struct ClosingView<'a, S: Sheet> {
    pub member: Member,
    pub records: &'a [OpeningRecord],
    pub rounds: usize,
    pub places: &'a [S::Row],
    ghost each: { member.n ≤ length records.now },
    ghost enough: { all_places member.n ≤ length places.now },
}

impl<S: Sheet> ClosingView<'_, S> {
    // Whether a ballot is undecided.
    fn is_undecided(&self, slot: u8) -> bool
        requires { slot < self.now.member.n }
        ensures { result ≡ is_undecided S.Sheet.rows self.now.member.n (viewed self.now.records.now self.now.rounds self.now.places.now) slot }
    {
        self.records[usize::from(slot)].ballot.decided.is_none()
    }

    // Whether a ballot is decided 1.
    fn is_decided_in(&self, slot: u8) -> bool
        requires { slot < self.now.member.n }
        ensures { result ≡ is_decided_in S.Sheet.rows self.now.member.n (viewed self.now.records.now self.now.rounds self.now.places.now) slot }
    {
        self.records[usize::from(slot)].ballot.decided == Some(true)
    }

    // The sheet delivered for a slot.
    fn sheet_of_slot(&self, slot: u8) -> Option<S>
        requires { slot < self.now.member.n }
        ensures { option_map S.Sheet.bytes result ≡ sheet_of_slot S.Sheet.rows self.now.member.n (viewed self.now.records.now self.now.rounds self.now.places.now) slot }
    {
        let record = self.records[usize::from(slot)].slot;
        delivered::sheet_of_slot(record, self.places, self.member.n, slot)
    }

    // Whether a ballot is decided 1 and no sheet is delivered for its slot.
    fn is_missing(&self, slot: u8) -> bool
        requires { slot < self.now.member.n }
        ensures { result ≡ is_missing S.Sheet.rows self.now.member.n (viewed self.now.records.now self.now.rounds self.now.places.now) slot }
    {
        self.is_decided_in(slot) && self.sheet_of_slot(slot).is_none()
    }

    // The sheet on the list for a replica: its ballot is decided 1, and a sheet is delivered for its slot.
    pub fn listed_sheet(&self, slot: u8) -> Option<S>
        requires { slot < self.now.member.n }
        ensures { option_map S.Sheet.bytes result ≡ listed_sheet S.Sheet.rows self.now.member.n (viewed self.now.records.now self.now.rounds self.now.places.now) slot }
    {
        if !self.is_decided_in(slot) {
            return None;
        }
        self.sheet_of_slot(slot)
    }

    // Whether a replica is on the list.
    pub fn is_listed(&self, slot: u8) -> bool
        requires { slot < self.now.member.n }
        ensures { result ≡ is_listed S.Sheet.rows self.now.member.n (viewed self.now.records.now self.now.rounds self.now.places.now) slot }
    {
        self.listed_sheet(slot).is_some()
    }

    // The lowest ballot that is undecided.
    pub fn lowest_undecided(&self) -> Option<u8>
        ensures { result ≡ lowest (is_undecided S.Sheet.rows self.now.member.n (viewed self.now.records.now self.now.rounds self.now.places.now)) self.now.member.n }
    {
        (0..self.member.n).find(|slot| self.is_undecided(*slot))
    }

    // The lowest slot whose sheet is missing.
    pub fn lowest_missing(&self) -> Option<u8>
        ensures { result ≡ lowest (is_missing S.Sheet.rows self.now.member.n (viewed self.now.records.now self.now.rounds self.now.places.now)) self.now.member.n }
    {
        (0..self.member.n).find(|slot| self.is_missing(*slot))
    }
}
