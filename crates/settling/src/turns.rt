// The steps of all slots, and what the steps of a slot bring about.
ghost use Rattle.std.specs.Prelude.{◌≡◌, ◌*◌, ◌<◌, ◌≤◌, length};
ghost use Rattle.slots.specs.Places.{all_places};
ghost use Rattle.outcomes.specs.Holdings.{Life};
ghost use Rattle.outcomes.specs.SlotSteps.{SlotOrder};
ghost use Rattle.outcomes.specs.Tables.{holding, setting};
ghost use Rattle.outcomes.specs.Taking.{taken_below, slot_taken, looked};
ghost use Rattle.settling.specs.Turns.{both_taken};

use crate::proposing::{may_propose, propose_all};
use crate::slot_steps::{settle_sheets, settle_votes};
use basis::member::Member;
use coins::coin::Coin;
use outcomes::opening_record::OpeningRecord;
use rules::rule::Rule;
use sheets::sheet::Sheet;

// Takes the steps of a slot's sheets and then those of its ballot.
pub fn settle_both<S: Sheet, R: Rule, C: Coin>(
    records: &mut [OpeningRecord],
    rounds: &mut [R::Record],
    places: &mut [S::Row],
    coin: &mut C,
    member: Member,
    slot: u8,
)
    requires slot { slot < member.n }
    requires records { member.n ≤ length records.old }
    requires rounds { 15 * member.n ≤ length rounds.old }
    requires places { all_places member.n ≤ length places.old }
    ensures { (l : Life) → holding R.Rule.meaning l records.new rounds.new places.new coin.new ≡ both_taken (setting S.Sheet.rows S.Sheet.LEN S.Sheet.KIND S.Sheet.lawful R.Rule.acts C.Coin.acts) member.n member.own slot (holding R.Rule.meaning l records.old rounds.old places.old coin.old) }
{
    settle_sheets::<S>(records, places, member, slot);
    settle_votes::<R, C>(&mut records[usize::from(slot)], rounds, coin, member, slot);
}

// Takes the steps of every slot's sheets and ballot, the lowest slot first.
pub fn settle_all<S: Sheet, R: Rule, C: Coin>(
    records: &mut [OpeningRecord],
    rounds: &mut [R::Record],
    places: &mut [S::Row],
    coin: &mut C,
    member: Member,
)
    requires records { member.n ≤ length records.old }
    requires rounds { 15 * member.n ≤ length rounds.old }
    requires places { all_places member.n ≤ length places.old }
    ensures { (l : Life) → holding R.Rule.meaning l records.new rounds.new places.new coin.new ≡ taken_below (setting S.Sheet.rows S.Sheet.LEN S.Sheet.KIND S.Sheet.lawful R.Rule.acts C.Coin.acts) member.n member.own member.n (holding R.Rule.meaning l records.old rounds.old places.old coin.old) }
{
    for slot in 0..member.n {
        settle_both::<S, R, C>(records, rounds, places, coin, member, slot);
    }
}

// Takes the steps of a slot: those of its sheets; then the replica proposes, with the steps of all slots, or else
// those of its ballot are taken. That comes to the same as taking the first listed step that applies, until none does.
#[inline(always)]
pub fn take_steps<S: Sheet, R: Rule, C: Coin>(
    records: &mut [OpeningRecord],
    rounds: &mut [R::Record],
    places: &mut [S::Row],
    coin: &mut C,
    member: Member,
    slot: u8,
)
    requires slot { slot < member.n }
    requires records { member.n ≤ length records.old }
    requires rounds { 15 * member.n ≤ length rounds.old }
    requires places { all_places member.n ≤ length places.old }
    ensures taken { (l : Life) → holding R.Rule.meaning l records.new rounds.new places.new coin.new ≡ slot_taken (setting S.Sheet.rows S.Sheet.LEN S.Sheet.KIND S.Sheet.lawful R.Rule.acts C.Coin.acts) member.n member.own slot (holding R.Rule.meaning l records.old rounds.old places.old coin.old) }
    ensures order { SlotOrder (setting S.Sheet.rows S.Sheet.LEN S.Sheet.KIND S.Sheet.lawful R.Rule.acts C.Coin.acts) }
{
    settle_sheets::<S>(records, places, member, slot);
    if may_propose(records, member, slot) {
        propose_all(records, member);
        settle_all::<S, R, C>(records, rounds, places, coin, member);
    } else {
        settle_votes::<R, C>(&mut records[usize::from(slot)], rounds, coin, member, slot);
    }
}

// Takes the steps of every slot, the lowest first.
pub fn look_all<S: Sheet, R: Rule, C: Coin>(
    records: &mut [OpeningRecord],
    rounds: &mut [R::Record],
    places: &mut [S::Row],
    coin: &mut C,
    member: Member,
)
    requires records { member.n ≤ length records.old }
    requires rounds { 15 * member.n ≤ length rounds.old }
    requires places { all_places member.n ≤ length places.old }
    ensures { (l : Life) → holding R.Rule.meaning l records.new rounds.new places.new coin.new ≡ looked (setting S.Sheet.rows S.Sheet.LEN S.Sheet.KIND S.Sheet.lawful R.Rule.acts C.Coin.acts) member.n member.own member.n (holding R.Rule.meaning l records.old rounds.old places.old coin.old) }
{
    for slot in 0..member.n {
        take_steps::<S, R, C>(records, rounds, places, coin, member, slot);
    }
}
