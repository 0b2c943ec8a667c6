// What a replica does that has offered, running or closed: hear, look, say.
ghost use Rattle.std.specs.Prelude.{◌≡◌};
ghost use Rattle.basis.specs.Refusals.{told};
ghost use Rattle.basis.specs.declared.member.Member.{Member as Numbered};
ghost use Rattle.outcomes.specs.Calls.{look_after};
ghost use Rattle.outcomes.specs.Hearing.{hear_answer_lem, hear_after};
ghost use Rattle.outcomes.specs.Holdings.{Life, large_enough};
ghost use Rattle.outcomes.specs.Saying.{say_answer, say_output};
ghost use Rattle.outcomes.specs.Tables.{setting, holding};
ghost use Rattle.saying.specs.SaysTheFirst.{SaysTheFirst};

use crate::states::{Closed, Running};
use basis::heard::Heard;
use basis::member::Member;
use basis::refusal::{Reason, Refusal};
use broadcast::calls::are_large_enough;
use coins::coin::Coin;
use hearing::packet;
use outcomes::opening_record::OpeningRecord;
use rules::rule::Rule;
use saying::say;
use settling::turns::look_all;
use sheets::sheet::Sheet;

// The calls leave the state as it is: l is either.
pub trait Offered {
    ghost numbered: { Self → Numbered };

    fn member(&self) -> Member
        ensures { result ≡ numbered self.now };

    // Hears a packet from a sender: the checks in their order; a new message is recorded and its slot's steps are taken.
    fn hear<S: Sheet, R: Rule, C: Coin>(
        &self,
        sender: u8,
        packet: &[u8],
        records: &mut [OpeningRecord],
        rounds: &mut [R::Record],
        places: &mut [S::Row],
        coin: &mut C,
    ) -> Result<Heard, Refusal>
        ensures answer { (l : Life) → told result ≡ hear_answer_lem (setting S.Sheet.rows S.Sheet.LEN S.Sheet.KIND S.Sheet.lawful R.Rule.acts C.Coin.acts) (numbered self.now).n (numbered self.now).own sender packet.now (holding R.Rule.meaning l records.old rounds.old places.old coin.old) }
        ensures left { (l : Life) → holding R.Rule.meaning l records.new rounds.new places.new coin.new ≡ hear_after (setting S.Sheet.rows S.Sheet.LEN S.Sheet.KIND S.Sheet.lawful R.Rule.acts C.Coin.acts) (numbered self.now).n (numbered self.now).own sender packet.now (holding R.Rule.meaning l records.old rounds.old places.old coin.old) }
    {
        packet::hear::<S, R, C>(records, rounds, places, coin, self.member(), sender, packet)
    }

    // Takes the steps of every slot, the lowest first.
    fn look<S: Sheet, R: Rule, C: Coin>(
        &self,
        records: &mut [OpeningRecord],
        rounds: &mut [R::Record],
        places: &mut [S::Row],
        coin: &mut C,
    ) -> Result<(), Refusal>
        ensures answer { (l : Life) → told result ≡ large_enough (numbered self.now).n (holding R.Rule.meaning l records.old rounds.old places.old coin.old) }
        ensures left { (l : Life) → holding R.Rule.meaning l records.new rounds.new places.new coin.new ≡ look_after (setting S.Sheet.rows S.Sheet.LEN S.Sheet.KIND S.Sheet.lawful R.Rule.acts C.Coin.acts) (numbered self.now).n (numbered self.now).own (holding R.Rule.meaning l records.old rounds.old places.old coin.old) }
    {
        let member = self.member();
        if !are_large_enough(member.n, records.len(), rounds.len(), places.len()) {
            return Err(Reason::TablesTooSmall.at(0));
        }
        look_all::<S, R, C>(records, rounds, places, coin, member);
        Ok(())
    }

    // Writes the first message said at or after a position and answers its position, or answers that none is left.
    fn say<S: Sheet, R: Rule, C: Coin>(
        &self,
        from: u32,
        out: &mut [u8],
        records: &[OpeningRecord],
        rounds: &[R::Record],
        places: &[S::Row],
        coin: &C,
    ) -> Result<Option<u32>, Refusal>
        ensures answer { (l : Life) → told result ≡ say_answer (setting S.Sheet.rows S.Sheet.LEN S.Sheet.KIND S.Sheet.lawful R.Rule.acts C.Coin.acts) (numbered self.now).n (numbered self.now).own (holding R.Rule.meaning l records.now rounds.now places.now coin.now) from out.old }
        ensures output { (l : Life) → out.new ≡ say_output (setting S.Sheet.rows S.Sheet.LEN S.Sheet.KIND S.Sheet.lawful R.Rule.acts C.Coin.acts) (numbered self.now).n (numbered self.now).own (holding R.Rule.meaning l records.now rounds.now places.now coin.now) from out.old }
        ensures law { SaysTheFirst (setting S.Sheet.rows S.Sheet.LEN S.Sheet.KIND S.Sheet.lawful R.Rule.acts C.Coin.acts) }
    {
        say::say::<S, R, C>(self.member(), records, rounds, places, coin, from, out)
    }
}

impl Offered for Running {
    ghost numbered = { λ r. r.member };

    fn member(&self) -> Member {
        self.member
    }
}

impl Offered for Closed {
    ghost numbered = { λ r. r.member };

    fn member(&self) -> Member {
        self.member
    }
}
