// The calls of a replica that go by a rule, for takings and the dealt coin, under the rule of a name.
ghost use Rattle.std.specs.Prelude.{◌≡◌};
ghost use Rattle.basis.specs.Refusals.{told};
ghost use Rattle.outcomes.specs.Hearing.{hear_answer_lem, hear_after};
ghost use Rattle.outcomes.specs.Holdings.{Life, Fresh as IsFresh};
ghost use Rattle.outcomes.specs.Opening.{moved_on, offer_answer, offer_after};
ghost use Rattle.outcomes.specs.Saying.{say_answer, say_output};
ghost use Rattle.outcomes.specs.Tables.{holding};
ghost use Rattle.phases.specs.Records.{meaning_of};
ghost use Rattle.replica.specs.Told.{numbers_of, offer_told, life_left};
ghost use Rattle.saying.specs.SaysTheFirst.{SaysTheFirst};
ghost use Rattle.sheets.specs.OfTakings.{takings_bytes};
ghost use Rattle.halls.specs.Actives.{active_member};
ghost use Rattle.halls.specs.States.{setting_of};

use crate::state::Active;
use basis::heard::Heard;
use basis::refusal::Refusal;
use coins::dealt::DealtCoin;
use outcomes::opening_record::OpeningRecord;
use phases::phased::{ThreePhase, TwoPhase};
use phases::round::PhasedRound;
use replica::offered::Offered;
use replica::states::{Fresh, Running};
use scripts::command::RuleName;
use sheets::kinds::{Takings, TakingsRow};

// Offers takings.
pub fn offer_by(
    rule: RuleName,
    fresh: Fresh,
    sheet: &Takings,
    records: &mut [OpeningRecord],
    rounds: &mut [PhasedRound],
    places: &mut [TakingsRow],
    coin: &mut DealtCoin,
) -> Result<Running, (Fresh, Refusal)>
    ensures answer { offer_told result ≡ moved_on (numbers_of fresh.member) (offer_answer (setting_of rule) fresh.member.n fresh.member.own (holding meaning_of IsFresh records.old rounds.old places.old coin.old)) }
    ensures left { holding meaning_of (life_left result) records.new rounds.new places.new coin.new ≡ offer_after (setting_of rule) fresh.member.n fresh.member.own (takings_bytes sheet.now) (holding meaning_of IsFresh records.old rounds.old places.old coin.old) }
{
    match rule {
        RuleName::Two => {
            fresh.offer::<Takings, TwoPhase, DealtCoin>(sheet, records, rounds, places, coin)
        }
        RuleName::Three => {
            fresh.offer::<Takings, ThreePhase, DealtCoin>(sheet, records, rounds, places, coin)
        }
    }
}

impl Active {
    // Hears a packet from a sender.
    pub fn hear_by(
        &self,
        rule: RuleName,
        sender: u8,
        packet: &[u8],
        records: &mut [OpeningRecord],
        rounds: &mut [PhasedRound],
        places: &mut [TakingsRow],
        coin: &mut DealtCoin,
    ) -> Result<Heard, Refusal>
        ensures answer { (l : Life) → told result ≡ hear_answer_lem (setting_of rule) (active_member self.now).n (active_member self.now).own sender packet.now (holding meaning_of l records.old rounds.old places.old coin.old) }
        ensures left { (l : Life) → holding meaning_of l records.new rounds.new places.new coin.new ≡ hear_after (setting_of rule) (active_member self.now).n (active_member self.now).own sender packet.now (holding meaning_of l records.old rounds.old places.old coin.old) }
    {
        match rule {
            RuleName::Two => self.hear::<Takings, TwoPhase, DealtCoin>(
                sender, packet, records, rounds, places, coin,
            ),
            RuleName::Three => self.hear::<Takings, ThreePhase, DealtCoin>(
                sender, packet, records, rounds, places, coin,
            ),
        }
    }

    // Writes the first message said at or after a position and answers its position, or answers that none is left.
    pub fn say_by(
        &self,
        rule: RuleName,
        from: u32,
        out: &mut [u8],
        records: &[OpeningRecord],
        rounds: &[PhasedRound],
        places: &[TakingsRow],
        coin: &DealtCoin,
    ) -> Result<Option<u32>, Refusal>
        ensures answer { (l : Life) → told result ≡ say_answer (setting_of rule) (active_member self.now).n (active_member self.now).own (holding meaning_of l records.now rounds.now places.now coin.now) from out.old }
        ensures output { (l : Life) → out.new ≡ say_output (setting_of rule) (active_member self.now).n (active_member self.now).own (holding meaning_of l records.now rounds.now places.now coin.now) from out.old }
        ensures law { SaysTheFirst (setting_of rule) }
    {
        match rule {
            RuleName::Two => {
                self.say::<Takings, TwoPhase, DealtCoin>(from, out, records, rounds, places, coin)
            }
            RuleName::Three => {
                self.say::<Takings, ThreePhase, DealtCoin>(from, out, records, rounds, places, coin)
            }
        }
    }
}
