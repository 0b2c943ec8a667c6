// What say looks at in a replica's tables.
ghost use Rattle.std.specs.Prelude.{◌≡◌, ℕ, ◌*◌, ◌<◌, ◌≤◌, length};
ghost use Rattle.ballots.specs.States.{round_at};
ghost use Rattle.rules.specs.Rounds.{vote_of, recorded};
ghost use Rattle.slots.specs.Places.{all_places};
ghost use Rattle.outcomes.specs.Holdings.{Running, state_of};
ghost use Rattle.outcomes.specs.Tables.{holding};

use ballots::rounds::row_of;
use basis::member::Member;
use coins::coin::Coin;
use outcomes::opening_record::OpeningRecord;
use rules::cast_vote::CastVote;
use rules::rule::Rule;
use sheets::sheet::Sheet;

// The tables and the coin of a replica, large enough for its hall.
#[derive(Drop)]
pub struct SayingView<'a, S: Sheet, R: Rule, C: Coin> {
    pub member: Member,
    pub records: &'a [OpeningRecord],
    pub rounds: &'a [R::Record],
    pub places: &'a [S::Row],
    pub coin: &'a C,
    ghost each: { member.n ≤ length records.now },
    ghost rows: { 15 * member.n ≤ length rounds.now },
    ghost enough: { all_places member.n ≤ length places.now },
}

impl<S: Sheet, R: Rule, C: Coin> SayingView<'_, S, R, C> {
    // Whether a vote is recorded in a round of a ballot.
    pub fn has_recorded(&self, slot: u8, round: u8, vote: CastVote) -> bool
        requires slot { slot < self.now.member.n }
        requires round { round < 16 }
        ensures { result ≡ recorded (vote_of vote) (round_at slot round (state_of slot (holding R.Rule.meaning Running self.now.records.now self.now.rounds.now self.now.places.now self.now.coin.now))) }
    {
        match round.checked_sub(1) {
            None => self.records[usize::from(slot)]
                .ballot
                .opening
                .has_recorded(vote),
            Some(later) => R::has_recorded(&self.rounds[row_of(slot, later)], vote),
        }
    }
}
