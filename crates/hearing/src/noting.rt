// Recording a message under its sender: a sheet, a vote, a share.
ghost use Rattle.std.specs.Prelude.{◌≡◌, ◌*◌, ◌<◌, ◌≤◌, true, [], length, map, slice_set};
ghost use Rattle.basis.specs.Refusals.{told, numbered};
ghost use Rattle.broadcast.specs.Calls.{sheet_answer, if_new};
ghost use Rattle.coins.specs.Coins.{Lawful, take_answer, take_after};
ghost use Rattle.outcomes.specs.Hearing.{at_value as placed_at_value};
ghost use Rattle.outcomes.specs.Tables.{slots_in, ballots_in};
ghost use Rattle.rules.specs.Laws.{Audible};
ghost use Rattle.rules.specs.Rounds.{vote_of, hear_answer};
ghost use Rattle.slots.specs.Places.{place, all_places};
ghost use Rattle.hearing.specs.Votes.{round_in, ballots_heard, rounds_heard};

use ballots::rounds::row_of;
use basis::heard::Heard;
use basis::member::Member;
use basis::refusal::{Reason, Refusal};
use broadcast::calls::{compare, may_come};
use coins::coin::Coin;
use coins::share::Share;
use messages::message::Phase;
use outcomes::opening_record::OpeningRecord;
use rules::cast_vote::CastVote;
use rules::rule::Rule;
use sheets::rows::put_sheet;
use sheets::sheet::Sheet;
use slots::places::place_of;

// A vote's or a share's answer: a contradiction is refused where its value stands.
fn at_value(heard: Result<Heard, Reason>) -> Result<Heard, Refusal>
    ensures { told result ≡ placed_at_value (numbered heard) }
{
    heard.map_err(|why| why.at(5))
}

// Records a lawful sheet, where it is new.
#[inline(always)]
pub fn note_sheet<S: Sheet>(
    places: &mut [S::Row],
    n: u8,
    sender: u8,
    phase: Phase,
    slot: u8,
    bytes: &[u8],
) -> Result<Heard, Refusal>
    requires slot { slot < n }
    requires sender { sender < n }
    requires places { all_places n ≤ length places.old }
    requires lawful { S.Sheet.lawful bytes.now ≡ true }
    ensures answer { told result ≡ sheet_answer S.Sheet.rows n sender (record { records = []; places = places.old }) phase slot bytes.now }
    ensures left { places.new ≡ if_new (sheet_answer S.Sheet.rows n sender (record { records = []; places = places.old }) phase slot bytes.now) (slice_set places.old (place n phase slot sender) (S.Sheet.rows.row bytes.now)) places.old }
{
    let sheet = S::decode(bytes).unwrap();
    if !may_come(phase, slot, sender) {
        return Err(Reason::SendNotFromSlot.at(3));
    }
    let at = place_of(n, phase, slot, sender);
    let heard = compare(places[at], &sheet)?;
    if heard == Heard::New {
        put_sheet(places, at, &sheet);
    }
    Ok(heard)
}

// Records a vote, where it is new: one of round 0 in its ballot's record, the others by the rule.
#[inline(always)]
pub fn note_vote<R: Rule>(
    records: &mut [OpeningRecord],
    rounds: &mut [R::Record],
    member: Member,
    slot: u8,
    round: u8,
    vote: CastVote,
) -> Result<Heard, Refusal>
    requires slot { slot < member.n }
    requires round { round ≤ 15 }
    requires records { member.n ≤ length records.old }
    requires rounds { 15 * member.n ≤ length rounds.old }
    requires audible { Audible R.acts.tags member.n member.own (vote_of vote) }
    ensures answer { told result ≡ placed_at_value (hear_answer (vote_of vote) (round_in slot round (ballots_in records.old) (map R.meaning rounds.old))) }
    ensures slots { slots_in records.new ≡ slots_in records.old }
    ensures ballots { ballots_in records.new ≡ ballots_heard slot round (vote_of vote) (ballots_in records.old) }
    ensures rounds { map R.meaning rounds.new ≡ rounds_heard R.acts member.n member.own slot round (vote_of vote) (map R.meaning rounds.old) }
{
    if round == 0 {
        return at_value(records[usize::from(slot)].ballot.opening.hear_vote(vote));
    }
    at_value(R::hear(&mut rounds[row_of(slot, round - 1)], member, vote))
}

// Takes a share, where it is new.
#[inline(always)]
pub fn note_share<C: Coin>(coin: &mut C, share: Share) -> Result<Heard, Refusal>
    requires { Lawful share }
    ensures answer { told result ≡ placed_at_value (take_answer C.acts coin.old share) }
    ensures left { coin.new ≡ take_after C.acts coin.old share }
{
    at_value(coin.take(share))
}
