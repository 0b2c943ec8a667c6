// Clearing the tables of a replica that opens.
ghost use Rattle.std.specs.Prelude.{◌≡◌, ◌*◌, ◌<◌, ◌≤◌, length, map};
ghost use Rattle.ballots.specs.States.{unopened};
ghost use Rattle.broadcast.specs.Opening.{cleared_to};
ghost use Rattle.outcomes.specs.Tables.{slots_in, ballots_in};
ghost use Rattle.rules.specs.Rounds.{cleared as cleared_round};
ghost use Rattle.slots.specs.Places.{all_places};
ghost use Rattle.slots.specs.Steps.{cleared};

use ballots::ballot::Ballot;
use broadcast::calls::ROUNDS;
use broadcast::open::clear_to;
use outcomes::opening_record::OpeningRecord;
use rules::rule::Rule;
use sheets::sheet::Sheet;
use slots::places::places_in;
use slots::slot::Slot;

// Clears the first rounds of a table, each as its rule does; the others stay.
pub fn clear_rounds<R: Rule>(rounds: &mut [R::Record], count: usize)
    requires { count ≤ length rounds.old }
    ensures { map R.meaning rounds.new ≡ cleared_to count cleared_round (map R.meaning rounds.old) }
{
    for row in &mut rounds[..count] {
        R::clear(row);
    }
}

// Clears the rows that a hall of n needs.
pub fn clear_tables<S: Sheet, R: Rule>(
    records: &mut [OpeningRecord],
    rounds: &mut [R::Record],
    places: &mut [S::Row],
    n: u8,
)
    requires records { n ≤ length records.old }
    requires rounds { 15 * n ≤ length rounds.old }
    requires places { all_places n ≤ length places.old }
    ensures slots { slots_in records.new ≡ cleared_to n cleared (slots_in records.old) }
    ensures ballots { ballots_in records.new ≡ cleared_to n unopened (ballots_in records.old) }
    ensures rounds { map R.Rule.meaning rounds.new ≡ cleared_to (15 * n) cleared_round (map R.Rule.meaning rounds.old) }
    ensures places { places.new ≡ cleared_to (all_places n) S.Sheet.rows.vacant places.old }
{
    let row = OpeningRecord {
        slot: Slot::default(),
        ballot: Ballot::unopened(),
    };
    clear_to(records, usize::from(n), row);
    clear_rounds::<R>(rounds, ROUNDS * usize::from(n));
    clear_to(places, places_in(n), S::empty_row());
}
