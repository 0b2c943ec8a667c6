// Closing a replica.
ghost use Rattle.std.specs.Prelude.{◌≡◌, length};
ghost use Rattle.outcomes.specs.Closing.{close_answer};
ghost use Rattle.outcomes.specs.Opening.{moved_on};
ghost use Rattle.outcomes.specs.Tables.{viewed};
ghost use Rattle.replica.specs.Told.{numbers_of, close_told};

use crate::states::{Closed, Running};
use basis::refusal::Refusal;
use closing::close::check_closing;
use outcomes::opening_record::OpeningRecord;
use rules::rule::Rule;
use sheets::sheet::Sheet;

impl Running {
    // Closes: all ballots are decided, and the sheets of those decided 1 delivered. A refused close keeps it running.
    pub fn close<S: Sheet, R: Rule>(
        self,
        records: &[OpeningRecord],
        rounds: &[R::Record],
        places: &[S::Row],
    ) -> Result<Closed, (Running, Refusal)>
        ensures { close_told result ≡ moved_on (numbers_of self.member) (close_answer S.Sheet.rows self.member.n (viewed records.now (length rounds.now) places.now)) }
    {
        match check_closing::<S>(self.member, records, rounds.len(), places) {
            Ok(()) => Ok(Closed {
                member: self.member,
            }),
            Err(refusal) => Err((self, refusal)),
        }
    }
}
