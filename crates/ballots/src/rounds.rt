// Later rounds of a ballot in the lent table, by slot and round.
ghost use Rattle.std.specs.Prelude.{◌≡◌, ℕ, cond, nat_lt};
ghost use Rattle.ballots.specs.States.{stage_of, place};

use crate::ballot::Stage;
use basis::member::Member;
use rules::rule::Rule;

// How many later rounds a ballot has.
pub const LATER: u8 = 15;

// Where a slot's later round stands in the table; round 1 is the first of them, number 0 here.
pub fn row_of(slot: u8, later: u8) -> usize
    ensures { result ≡ place slot later }
{
    15 * usize::from(slot) + usize::from(later)
}

// The rule takes its steps in a later round, where that is entered.
pub fn take_rule_steps<R: Rule>(row: &mut R::Record, stage: Stage, member: Member, later: u8)
    ensures { R.meaning row.new ≡ cond (nat_lt later (stage_of stage)) (R.acts.steps member.n member.own (R.meaning row.old)) (R.meaning row.old) }
{
    if stage.has_entered(later) {
        R::take_steps(row, member);
    }
}
