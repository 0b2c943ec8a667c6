// Opening a replica, and offering its sheet.
ghost use Rattle.std.specs.Prelude.{◌≡◌, length, OnOk};
ghost use Rattle.outcomes.specs.Holdings.{Fresh as IsFresh};
ghost use Rattle.outcomes.specs.Opening.{TablesOpened, open_answer_lem, open_after, moved_on, offer_answer, offer_after};
ghost use Rattle.outcomes.specs.Tables.{setting, lent, holding};
ghost use Rattle.replica.specs.Told.{numbers_of, fresh_told, offer_told, life_left};

use crate::states::{Fresh, Running};
use basis::member::Member;
use basis::refusal::{Reason, Refusal};
use broadcast::calls::are_large_enough;
use coins::coin::Coin;
use messages::message::Phase;
use outcomes::opening_record::OpeningRecord;
use rules::rule::Rule;
use settling::clearing::clear_tables;
use settling::turns::take_steps;
use sheets::rows::put_sheet;
use sheets::sheet::Sheet;
use slots::places::place_of;

// Tables are lent to each call as parameters: a struct that lends them would be seen after the call by position, and
// would owe a clause on each reference.
impl Fresh {
    // Opens a replica: a listed hall size, an own number below it, tables that are large enough; it clears them.
    pub fn open<S: Sheet, R: Rule>(
        n: u8,
        own: u8,
        records: &mut [OpeningRecord],
        rounds: &mut [R::Record],
        places: &mut [S::Row],
    ) -> Result<Fresh, Refusal>
        ensures answer { fresh_told result ≡ open_answer_lem S.Sheet.rows n own (lent R.Rule.meaning records.old rounds.old places.old) }
        ensures left { lent R.Rule.meaning records.new rounds.new places.new ≡ open_after S.Sheet.rows n own (lent R.Rule.meaning records.old rounds.old places.old) }
        ensures opened { OnOk result (TablesOpened S.Sheet.rows n (lent R.Rule.meaning records.new rounds.new places.new)) }
    {
        let member = Member::new(n, own)?;
        if !are_large_enough(n, records.len(), rounds.len(), places.len()) {
            return Err(Reason::TablesTooSmall.at(0));
        }
        clear_tables::<S, R>(records, rounds, places, n);
        Ok(Fresh { member })
    }

    // Offers a sheet: says its send and takes the steps of the own slot. A refused offer keeps the replica fresh.
    pub fn offer<S: Sheet, R: Rule, C: Coin>(
        self,
        sheet: &S,
        records: &mut [OpeningRecord],
        rounds: &mut [R::Record],
        places: &mut [S::Row],
        coin: &mut C,
    ) -> Result<Running, (Fresh, Refusal)>
        ensures answer { offer_told result ≡ moved_on (numbers_of self.member) (offer_answer (setting S.Sheet.rows S.Sheet.LEN S.Sheet.KIND S.Sheet.lawful R.Rule.acts C.Coin.acts) self.member.n self.member.own (holding R.Rule.meaning IsFresh records.old rounds.old places.old coin.old)) }
        ensures left { holding R.Rule.meaning (life_left result) records.new rounds.new places.new coin.new ≡ offer_after (setting S.Sheet.rows S.Sheet.LEN S.Sheet.KIND S.Sheet.lawful R.Rule.acts C.Coin.acts) self.member.n self.member.own (S.Sheet.bytes sheet.now) (holding R.Rule.meaning IsFresh records.old rounds.old places.old coin.old) }
    {
        let Member { n, own } = self.member;
        if !are_large_enough(n, records.len(), rounds.len(), places.len()) {
            return Err((self, Reason::TablesTooSmall.at(0)));
        }
        let Fresh { member } = self;
        put_sheet(places, place_of(n, Phase::Send, own, own), sheet);
        take_steps::<S, R, C>(records, rounds, places, coin, member, own);
        Ok(Running { member })
    }
}
