// The first message that a replica has said at or after a position.
ghost use Rattle.std.specs.Prelude.{◌≡◌, ◌+◌, ◌<◌, ◌≤◌, length};
ghost use Rattle.std.specs.Option.{option_map};
ghost use Rattle.basis.specs.Refusals.{told};
ghost use Rattle.messages.specs.Writing.{on_sheet};
ghost use Rattle.outcomes.specs.Holdings.{Life, Running};
ghost use Rattle.outcomes.specs.Tables.{setting, holding};
ghost use Rattle.broadcast.specs.Saying.{next_said};
ghost use Rattle.outcomes.specs.Saying.{first_of, first_if_used, lowest_vote, next_message, say_answer, say_output};
ghost use Rattle.saying.specs.SaysTheFirst.{SaysTheFirst};

use crate::below::{AFTER_SHEETS, FIRST_TAG, TAGS, tags_below};
use crate::view::SayingView;
use basis::member::Member;
use basis::refusal::{Reason, Refusal};
use broadcast::calls::are_large_enough;
use broadcast::say::Recorded;
use coins::coin::Coin;
use messages::message::Message;
use outcomes::opening_record::OpeningRecord;
use rules::rule::Rule;
use sheets::sheet::Sheet;

impl<S: Sheet, R: Rule, C: Coin> SayingView<'_, S, R, C> {
    // The first vote under a tag, where the rule uses it.
    fn first_if_used(&self, from: u32, tag: u8) -> Option<Message<S>>
        requires { 32 ≤ tag }
        ensures { option_map (on_sheet S.Sheet.bytes) result ≡ first_if_used (setting S.Sheet.rows S.Sheet.LEN S.Sheet.KIND S.Sheet.lawful R.Rule.acts C.Coin.acts) self.now.member.n self.now.member.own (holding R.Rule.meaning Running self.now.records.now self.now.rounds.now self.now.places.now self.now.coin.now) from tag }
    {
        if !R::tags().includes(tag) {
            return None;
        }
        self.first_under(from, tag)
    }

    // The first vote of all, from the tag on that does not lie wholly below the position.
    fn lowest_vote(&self, from: u32) -> Option<Message<S>>
        ensures { option_map (on_sheet S.Sheet.bytes) result ≡ lowest_vote (setting S.Sheet.rows S.Sheet.LEN S.Sheet.KIND S.Sheet.lawful R.Rule.acts C.Coin.acts) self.now.member.n self.now.member.own (holding R.Rule.meaning Running self.now.records.now self.now.rounds.now self.now.places.now self.now.coin.now) from }
    {
        for offset in tags_below(from)..TAGS {
            if let Some(vote) = self.first_if_used(from, FIRST_TAG + offset) {
                return Some(vote);
            }
        }
        None
    }

    // The first sheet message, where the position does not lie behind all of them.
    fn first_sheet(&self, from: u32) -> Option<Message<S>>
        ensures { option_map (on_sheet S.Sheet.bytes) result ≡ next_said S.Sheet.rows self.now.member.n self.now.member.own self.now.places.now from }
    {
        if from >= AFTER_SHEETS {
            return None;
        }
        let recorded = Recorded::<S> {
            member: self.member,
            places: self.places,
        };
        recorded.next_message(from)
    }

    // The first message of all: of sheets, votes by their tags, shares.
    fn next_message(&self, from: u32) -> Option<Message<S>>
        ensures { option_map (on_sheet S.Sheet.bytes) result ≡ next_message (setting S.Sheet.rows S.Sheet.LEN S.Sheet.KIND S.Sheet.lawful R.Rule.acts C.Coin.acts) self.now.member.n self.now.member.own (holding R.Rule.meaning Running self.now.records.now self.now.rounds.now self.now.places.now self.now.coin.now) from }
    {
        let vote = || self.lowest_vote(from);
        let share = || self.first_share(from);
        self.first_sheet(from).or_else(vote).or_else(share)
    }
}

// Writes the first message said at or after a position and answers its position, or answers that none is left: then
// no lawful message is said there, and else none has a lower position.
pub fn say<S: Sheet, R: Rule, C: Coin>(
    member: Member,
    records: &[OpeningRecord],
    rounds: &[R::Record],
    places: &[S::Row],
    coin: &C,
    from: u32,
    out: &mut [u8],
) -> Result<Option<u32>, Refusal>
    ensures answer { (l : Life) → told result ≡ say_answer (setting S.Sheet.rows S.Sheet.LEN S.Sheet.KIND S.Sheet.lawful R.Rule.acts C.Coin.acts) member.n member.own (holding R.Rule.meaning l records.now rounds.now places.now coin.now) from out.old }
    ensures output { (l : Life) → out.new ≡ say_output (setting S.Sheet.rows S.Sheet.LEN S.Sheet.KIND S.Sheet.lawful R.Rule.acts C.Coin.acts) member.n member.own (holding R.Rule.meaning l records.now rounds.now places.now coin.now) from out.old }
    ensures law { SaysTheFirst (setting S.Sheet.rows S.Sheet.LEN S.Sheet.KIND S.Sheet.lawful R.Rule.acts C.Coin.acts) }
{
    if !are_large_enough(member.n, records.len(), rounds.len(), places.len()) {
        return Err(Reason::TablesTooSmall.at(0));
    }
    let view = SayingView::<S, R, C> {
        member,
        records,
        rounds,
        places,
        coin,
    };
    let Some(message) = view.next_message(from) else {
        return Ok(None);
    };
    message.write(out)?;
    Ok(Some(message.position()))
}
