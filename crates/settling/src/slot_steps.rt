// The steps of one slot: those of its sheets, and those of its ballot.
ghost use Rattle.std.specs.Prelude.{◌≡◌, ◌+◌, ◌*◌, ◌<◌, ◌≤◌, length, map, is_some};
ghost use Rattle.slots.specs.Places.{all_places};
ghost use Rattle.slots.specs.Steps.{settled};
ghost use Rattle.ballots.specs.States.{BallotState, ballot_meaning};
ghost use Rattle.ballots.specs.Listed.{ballot_taken};
ghost use Rattle.outcomes.specs.Tables.{slots_in, ballots_in};

use ballots::going::settle_ballot;
use basis::member::Member;
use coins::coin::Coin;
use outcomes::opening_record::OpeningRecord;
use rules::rule::Rule;
use sheets::sheet::Sheet;
use slots::steps::settle_slot;

// Takes the steps of a slot's sheets.
#[inline(always)]
pub fn settle_sheets<S: Sheet>(
    records: &mut [OpeningRecord],
    places: &mut [S::Row],
    member: Member,
    slot: u8,
)
    requires slot { slot < member.n }
    requires records { member.n ≤ length records.old }
    requires places { all_places member.n ≤ length places.old }
    ensures slots { record { records = slots_in records.exit.now; places = places.new } ≡ settled S.Sheet.rows member.n member.own slot 3 (record { records = slots_in records.entry.now; places = places.old }) }
    ensures ballots { ballots_in records.new ≡ ballots_in records.old }
{
    settle_slot::<S>(
        &mut records[usize::from(slot)].slot,
        places,
        member.n,
        member.own,
        slot,
    );
}

// Takes the steps of a slot's ballot.
#[inline(always)]
pub fn settle_votes<R: Rule, C: Coin>(
    row: &mut OpeningRecord,
    rounds: &mut [R::Record],
    coin: &mut C,
    member: Member,
    slot: u8,
)
    requires { (slot < 16) × (15 * slot + 15 ≤ length rounds.old) }
    ensures slot { row.new.slot ≡ row.old.slot }
    ensures votes { record { ballot = ballot_meaning row.exit.now.ballot; rounds = map R.Rule.meaning rounds.new; coin = coin.new } ≡ ballot_taken R.Rule.acts C.Coin.acts member.n member.own slot (is_some row.entry.now.slot.delivered) (record { ballot = ballot_meaning row.entry.now.ballot; rounds = map R.Rule.meaning rounds.old; coin = coin.old }) }
{
    let delivered = row.slot.delivered.is_some();
    settle_ballot::<R, C>(&mut row.ballot, rounds, coin, member, slot, delivered);
}
