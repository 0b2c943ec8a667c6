// Records of labels under either rule and with each coin, with what holds of every evening of labels.
ghost use Rattle.std.specs.Prelude.{◌≡◌, length};
ghost use Rattle.basis.specs.Refusals.{told};
ghost use Rattle.coins.specs.Dealt.{dealt_acts};
ghost use Rattle.coins.specs.Shared.{share_acts};
ghost use Rattle.evenings.specs.Claims.{EveningsAgree, EveningsFill, EveningsRest};
ghost use Rattle.instances.specs.Settings.{of_labels};
ghost use Rattle.outcomes.specs.Closing.{record_answer, record_output};
ghost use Rattle.outcomes.specs.Tables.{viewed};
ghost use Rattle.phases.specs.Records.{meaning_of};
ghost use Rattle.phases.specs.Steps.{acts_of};
ghost use Rattle.sheets.specs.OfLabels.{label_rows};

use crate::tables::Tables;
use basis::refusal::Refusal;
use coins::dealt::DealtCoin;
use coins::share_coin::ShareCoin;
use phases::phased::Phased;
use replica::states::Closed;
use sheets::kinds::{Label, LabelRow};

// With the dealt coin, under the rule of two phases or, where `THIRD` is set, of three.
pub fn record_dealt<const THIRD: bool>(
    closed: &Closed,
    out: &mut [u8],
    lent: Tables<'_, LabelRow>,
) -> Result<usize, Refusal>
    ensures answer { told result ≡ record_answer label_rows closed.now.member.n (viewed lent.entry.records.now (length lent.entry.rounds.now) lent.entry.places.now) 36 2 out.old }
    ensures output { out.new ≡ record_output label_rows closed.now.member.n (viewed lent.entry.records.now (length lent.entry.rounds.now) lent.entry.places.now) 36 2 out.old }
    ensures agree { EveningsAgree (of_labels (acts_of THIRD) dealt_acts) meaning_of }
    ensures fill { EveningsFill (of_labels (acts_of THIRD) dealt_acts) meaning_of }
    ensures rest { EveningsRest (of_labels (acts_of THIRD) dealt_acts) meaning_of }
{
    closed.record::<Label, Phased<THIRD>, DealtCoin>(out, lent.records, lent.rounds, lent.places)
}

// The same with the share coin.
pub fn record_shared<const THIRD: bool>(
    closed: &Closed,
    out: &mut [u8],
    lent: Tables<'_, LabelRow>,
) -> Result<usize, Refusal>
    ensures answer { told result ≡ record_answer label_rows closed.now.member.n (viewed lent.entry.records.now (length lent.entry.rounds.now) lent.entry.places.now) 36 2 out.old }
    ensures output { out.new ≡ record_output label_rows closed.now.member.n (viewed lent.entry.records.now (length lent.entry.rounds.now) lent.entry.places.now) 36 2 out.old }
    ensures agree { EveningsAgree (of_labels (acts_of THIRD) share_acts) meaning_of }
    ensures fill { EveningsFill (of_labels (acts_of THIRD) share_acts) meaning_of }
    ensures rest { EveningsRest (of_labels (acts_of THIRD) share_acts) meaning_of }
{
    closed.record::<Label, Phased<THIRD>, ShareCoin>(out, lent.records, lent.rounds, lent.places)
}
