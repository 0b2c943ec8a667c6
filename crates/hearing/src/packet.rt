// Hearing a packet from a sender.
ghost use Rattle.std.specs.Prelude.{◌≡◌, ◌*◌, ◌<◌, ◌≤◌, length, Ok};
ghost use Rattle.basis.specs.Refusals.{told};
ghost use Rattle.broadcast.specs.Calls.{if_new};
ghost use Rattle.outcomes.specs.Hearing.{hear_answer_lem, hear_after};
ghost use Rattle.outcomes.specs.Holdings.{Life};
ghost use Rattle.outcomes.specs.Tables.{holding, setting};
ghost use Rattle.outcomes.specs.Taking.{slot_taken};
ghost use Rattle.slots.specs.Places.{all_places};

use crate::message::note_message;
use basis::heard::Heard;
use basis::member::Member;
use basis::refusal::{Reason, Refusal};
use broadcast::calls::{are_large_enough, is_another};
use coins::coin::Coin;
use messages::read::read;
use messages::tags::Format;
use outcomes::opening_record::OpeningRecord;
use rules::rule::Rule;
use settling::turns::take_steps;
use sheets::sheet::Sheet;

// Takes the steps of a slot after a message that is new.
pub fn take_steps_if_new<S: Sheet, R: Rule, C: Coin>(
    records: &mut [OpeningRecord],
    rounds: &mut [R::Record],
    places: &mut [S::Row],
    coin: &mut C,
    member: Member,
    slot: u8,
    heard: Heard,
)
    requires slot { slot < member.n }
    requires records { member.n ≤ length records.old }
    requires rounds { 15 * member.n ≤ length rounds.old }
    requires places { all_places member.n ≤ length places.old }
    ensures { (l : Life) → holding R.Rule.meaning l records.new rounds.new places.new coin.new ≡ if_new (Ok heard) (slot_taken (setting S.Sheet.rows S.Sheet.LEN S.Sheet.KIND S.Sheet.lawful R.Rule.acts C.Coin.acts) member.n member.own slot (holding R.Rule.meaning l records.old rounds.old places.old coin.old)) (holding R.Rule.meaning l records.old rounds.old places.old coin.old) }
{
    if heard == Heard::New {
        take_steps::<S, R, C>(records, rounds, places, coin, member, slot);
    }
}

// Hears a packet: the checks in their order, then the message is recorded and its slot's steps are taken.
pub fn hear<S: Sheet, R: Rule, C: Coin>(
    records: &mut [OpeningRecord],
    rounds: &mut [R::Record],
    places: &mut [S::Row],
    coin: &mut C,
    member: Member,
    sender: u8,
    packet: &[u8],
) -> Result<Heard, Refusal>
    ensures answer { (l : Life) → told result ≡ hear_answer_lem (setting S.Sheet.rows S.Sheet.LEN S.Sheet.KIND S.Sheet.lawful R.Rule.acts C.Coin.acts) member.n member.own sender packet.now (holding R.Rule.meaning l records.old rounds.old places.old coin.old) }
    ensures left { (l : Life) → holding R.Rule.meaning l records.new rounds.new places.new coin.new ≡ hear_after (setting S.Sheet.rows S.Sheet.LEN S.Sheet.KIND S.Sheet.lawful R.Rule.acts C.Coin.acts) member.n member.own sender packet.now (holding R.Rule.meaning l records.old rounds.old places.old coin.old) }
{
    if !are_large_enough(member.n, records.len(), rounds.len(), places.len()) {
        return Err(Reason::TablesTooSmall.at(0));
    }
    if !is_another(member, sender) {
        return Err(Reason::SenderNotAnother.at(0));
    }
    let format = Format {
        n: member.n,
        tags: R::tags(),
        shares: C::uses_shares(),
    };
    let message = read::<S>(packet, format)?;
    let heard = note_message::<S, R, C>(records, rounds, places, coin, member, sender, message)?;
    let slot = message.slot();
    take_steps_if_new::<S, R, C>(records, rounds, places, coin, member, slot, heard);
    Ok(heard)
}
