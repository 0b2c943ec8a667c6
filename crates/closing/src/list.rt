// The entries of the closing list.
ghost use Rattle.std.specs.Prelude.{◌≡◌};
ghost use Rattle.basis.specs.Refusals.{told};
ghost use Rattle.outcomes.specs.Tables.{viewed};
ghost use Rattle.outcomes.specs.Closing.{lowest, stands_at, entry_at, list_answer};
ghost use Rattle.closing.specs.ListTells.{ListTells};
ghost use Rattle.closing.specs.Telling.{entry_told};

use crate::view::ClosingView;
use basis::member::Member;
use basis::refusal::{Reason, Refusal};
use broadcast::calls::are_large_enough;
use outcomes::opening_record::OpeningRecord;
use sheets::sheet::Sheet;

// A replica, and the sheet delivered for its slot.
#[derive(Clone, Copy, PartialEq, Eq, Debug)]
pub struct ListEntry<S> {
    pub replica: u8,
    pub sheet: S,
}

impl<S: Sheet> ClosingView<'_, S> {
    // The entry at an index of the list, which rises by replica.
    fn entry_at(&self, index: usize) -> Result<ListEntry<S>, Refusal>
        ensures { entry_told S.Sheet.bytes result ≡ entry_at S.Sheet.rows self.now.member.n (viewed self.now.records.now self.now.rounds self.now.places.now) (lowest (stands_at S.Sheet.rows self.now.member.n (viewed self.now.records.now self.now.rounds self.now.places.now) index) self.now.member.n) }
    {
        let mut before = 0;
        for replica in 0..self.member.n {
            if let Some(sheet) = self.listed_sheet(replica) {
                if before == index {
                    return Ok(ListEntry { replica, sheet });
                }
                before += 1;
            }
        }
        Err(Reason::IndexTooLarge.at(0))
    }
}

// The entry at an index of the list; refused from the number of entries on.
pub fn list_entry<S: Sheet>(
    member: Member,
    records: &[OpeningRecord],
    rounds: usize,
    places: &[S::Row],
    index: usize,
) -> Result<ListEntry<S>, Refusal>
    ensures answer { entry_told S.Sheet.bytes result ≡ list_answer S.Sheet.rows member.n (viewed records.now rounds places.now) index }
    ensures law { ListTells S.Sheet.rows }
{
    if !are_large_enough(member.n, records.len(), rounds, places.len()) {
        return Err(Reason::TablesTooSmall.at(0));
    }
    let view = ClosingView::<S> {
        member,
        records,
        rounds,
        places,
    };
    view.entry_at(index)
}
