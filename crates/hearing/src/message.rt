// Recording whatever message was read.
ghost use Rattle.std.specs.Prelude.{◌≡◌, ◌*◌, ◌<◌, ◌≤◌, length};
ghost use Rattle.basis.specs.Refusals.{told};
ghost use Rattle.broadcast.specs.Calls.{if_new};
ghost use Rattle.messages.specs.declared.message.Part.{Part as PartIn};
ghost use Rattle.messages.specs.Reading.{Lawful, part_placed};
ghost use Rattle.messages.specs.Writing.{on_sheet};
ghost use Rattle.outcomes.specs.Hearing.{message_answer, message_noted};
ghost use Rattle.outcomes.specs.Holdings.{Life, syntax_of};
ghost use Rattle.outcomes.specs.Tables.{holding, setting};
ghost use Rattle.slots.specs.Places.{all_places};

use crate::noting::{note_share, note_sheet, note_vote};
use basis::heard::Heard;
use basis::member::Member;
use basis::refusal::Refusal;
use coins::coin::Coin;
use coins::share::Share;
use messages::message::{BitSet, Message, Part};
use outcomes::opening_record::OpeningRecord;
use rules::cast_vote::CastVote;
use rules::rule::Rule;
use sheets::sheet::Sheet;

// Records a message under its sender, where it is new.
#[inline(always)]
pub fn note_message<S: Sheet, R: Rule, C: Coin>(
    records: &mut [OpeningRecord],
    rounds: &mut [R::Record],
    places: &mut [S::Row],
    coin: &mut C,
    member: Member,
    sender: u8,
    message: Message<Part<'_>>,
) -> Result<Heard, Refusal>
    requires sender { sender < member.n }
    requires other { sender ≡ member.own → ⊥ }
    requires records { member.n ≤ length records.old }
    requires rounds { 15 * member.n ≤ length rounds.old }
    requires places { all_places member.n ≤ length places.old }
    requires lawful { Lawful (syntax_of (setting S.Sheet.rows S.Sheet.LEN S.Sheet.KIND S.Sheet.lawful R.Rule.acts C.Coin.acts) member.n) (on_sheet (λ (p : PartIn). p.bytes.now) message) }
    ensures answer { (l : Life) → told result ≡ message_answer (setting S.Sheet.rows S.Sheet.LEN S.Sheet.KIND S.Sheet.lawful R.Rule.acts C.Coin.acts) member.n member.own sender (holding R.Rule.meaning l records.old rounds.old places.old coin.old) (on_sheet part_placed message.entry) }
    ensures left { (l : Life) → holding R.Rule.meaning l records.new rounds.new places.new coin.new ≡ if_new (message_answer (setting S.Sheet.rows S.Sheet.LEN S.Sheet.KIND S.Sheet.lawful R.Rule.acts C.Coin.acts) member.n member.own sender (holding R.Rule.meaning l records.old rounds.old places.old coin.old) (on_sheet part_placed message.entry)) (message_noted (setting S.Sheet.rows S.Sheet.LEN S.Sheet.KIND S.Sheet.lawful R.Rule.acts C.Coin.acts) member.n member.own sender (on_sheet part_placed message.entry) (holding R.Rule.meaning l records.old rounds.old places.old coin.old)) (holding R.Rule.meaning l records.old rounds.old places.old coin.old) }
{
    match message {
        Message::Sheet { phase, slot, sheet } => {
            note_sheet::<S>(places, member.n, sender, phase, slot, sheet.bytes)
        }
        Message::Bit {
            vote,
            slot,
            round,
            bit,
        } => {
            let vote = CastVote {
                tag: vote.tag(),
                bits: BitSet::from(bit),
                sender,
            };
            note_vote::<R>(records, rounds, member, slot, round, vote)
        }
        Message::Set {
            tag,
            slot,
            round,
            bits,
        } => {
            let vote = CastVote { tag, bits, sender };
            note_vote::<R>(records, rounds, member, slot, round, vote)
        }
        Message::Share { slot, round, share } => {
            let share = Share {
                ballot: slot,
                round,
                sender,
                value: share,
            };
            note_share(coin, share)
        }
    }
}
