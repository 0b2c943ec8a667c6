// Whether a replica can close.
ghost use Rattle.std.specs.Prelude.{◌≡◌};
ghost use Rattle.basis.specs.Refusals.{told};
ghost use Rattle.outcomes.specs.Tables.{viewed};
ghost use Rattle.outcomes.specs.Closing.{decided_answer, close_answer};

use crate::view::ClosingView;
use basis::member::Member;
use basis::refusal::{Reason, Refusal};
use broadcast::calls::are_large_enough;
use outcomes::opening_record::OpeningRecord;
use sheets::sheet::Sheet;

impl<S: Sheet> ClosingView<'_, S> {
    // Refused at the lowest undecided ballot, then at the lowest slot whose sheet is missing.
    fn check_decided(&self) -> Result<(), Refusal>
        ensures { told result ≡ decided_answer S.Sheet.rows self.now.member.n (viewed self.now.records.now self.now.rounds self.now.places.now) }
    {
        if let Some(slot) = self.lowest_undecided() {
            return Err(Reason::BallotUndecided.at(usize::from(slot)));
        }
        if let Some(slot) = self.lowest_missing() {
            return Err(Reason::SheetMissing.at(usize::from(slot)));
        }
        Ok(())
    }
}

// Whether a replica can close: its tables are large enough, all ballots are decided, and the sheets of those decided 1
// are delivered.
pub fn check_closing<S: Sheet>(
    member: Member,
    records: &[OpeningRecord],
    rounds: usize,
    places: &[S::Row],
) -> Result<(), Refusal>
    ensures { told result ≡ close_answer S.Sheet.rows member.n (viewed records.now rounds places.now) }
{
    if !are_large_enough(member.n, records.len(), rounds, places.len()) {
        return Err(Reason::TablesTooSmall.at(0));
    }
    let view = ClosingView::<S> {
        member,
        records,
        rounds,
        places,
    };
    view.check_decided()
}
