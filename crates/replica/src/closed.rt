// What a closed replica gives: the list and the closing record.
ghost use Rattle.std.specs.Prelude.{◌≡◌, length};
ghost use Rattle.basis.specs.Refusals.{told};
ghost use Rattle.closing.specs.ListTells.{ListTells};
ghost use Rattle.closing.specs.RecordLength.{RecordLength};
ghost use Rattle.closing.specs.Telling.{entry_told};
ghost use Rattle.evening_witness.specs.Witness.{SomeEveningCloses};
ghost use Rattle.evenings.specs.Claims.{EveningsAgree, EveningsFill, EveningsRest, RestIfRoundsEnd};
ghost use Rattle.outcomes.specs.Closing.{list_answer, record_answer, record_output};
ghost use Rattle.outcomes.specs.Tables.{setting, viewed};
ghost use Rattle.phases.specs.Records.{meaning_of};
ghost use Rattle.phases.specs.Steps.{two_phase, three_phase};

use crate::states::Closed;
use basis::refusal::Refusal;
use closing::list::{ListEntry, list_entry};
use closing::record::write_record;
use coins::coin::Coin;
use outcomes::opening_record::OpeningRecord;
use rules::rule::Rule;
use sheets::sheet::Sheet;

impl Closed {
    // The entry at an index of the closing list, which rises by replica, has an entry at each index below the number of
    // listed sheets, and has just what the closing record has.
    pub fn list<S: Sheet, R: Rule>(
        &self,
        index: usize,
        records: &[OpeningRecord],
        rounds: &[R::Record],
        places: &[S::Row],
    ) -> Result<ListEntry<S>, Refusal>
        ensures answer { entry_told S.Sheet.bytes result ≡ list_answer S.Sheet.rows self.now.member.n (viewed records.now (length rounds.now) places.now) index }
        ensures law { ListTells S.Sheet.rows }
    {
        list_entry(self.member, records, rounds.len(), places, index)
    }

    // Writes the closing record and answers its length. In every evening: no two honest replicas decide a ballot
    // differently, refuse each other's messages, or list or record differently; a record has at least f + 2 sheets, an
    // honest replica's as it was offered; and at rest nobody waits. And there are evenings in which all close.
    pub fn record<S: Sheet, R: Rule, C: Coin>(
        &self,
        out: &mut [u8],
        records: &[OpeningRecord],
        rounds: &[R::Record],
        places: &[S::Row],
    ) -> Result<usize, Refusal>
        ensures answer { told result ≡ record_answer S.Sheet.rows self.now.member.n (viewed records.now (length rounds.now) places.now) S.Sheet.LEN S.Sheet.KIND out.old }
        ensures output { out.new ≡ record_output S.Sheet.rows self.now.member.n (viewed records.now (length rounds.now) places.now) S.Sheet.LEN S.Sheet.KIND out.old }
        ensures length { RecordLength S.Sheet.rows S.Sheet.LEN }
        ensures agree { EveningsAgree (setting S.Sheet.rows S.Sheet.LEN S.Sheet.KIND S.Sheet.lawful R.Rule.acts C.Coin.acts) R.Rule.meaning }
        ensures fill { EveningsFill (setting S.Sheet.rows S.Sheet.LEN S.Sheet.KIND S.Sheet.lawful R.Rule.acts C.Coin.acts) R.Rule.meaning }
        ensures rest { RestIfRoundsEnd (setting S.Sheet.rows S.Sheet.LEN S.Sheet.KIND S.Sheet.lawful R.Rule.acts C.Coin.acts) R.Rule.meaning }
        ensures two { EveningsRest (setting S.Sheet.rows S.Sheet.LEN S.Sheet.KIND S.Sheet.lawful two_phase C.Coin.acts) meaning_of }
        ensures three { EveningsRest (setting S.Sheet.rows S.Sheet.LEN S.Sheet.KIND S.Sheet.lawful three_phase C.Coin.acts) meaning_of }
        ensures witness { SomeEveningCloses }
    {
        write_record::<S>(self.member, records, rounds.len(), places, out)
    }
}
