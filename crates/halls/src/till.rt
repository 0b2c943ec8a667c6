// One till of a hall: its replica, in its state, with the tables and the coin that the till lends it.
ghost use Rattle.std.specs.Prelude.{◌≡◌, ◌<◌, T, Some, IfOk, IfErr, replicate};
ghost use Rattle.basis.specs.Halls.{listed};
ghost use Rattle.scripts.specs.declared.command.RuleName.{RuleName as AnyRule};
ghost use Rattle.outcomes.specs.Opening.{Opened};
ghost use Rattle.sheets.specs.OfTakings.{takings_bytes};
ghost use Rattle.halls.specs.declared.till.Fault.TheVariants.{Refused as IsRefused, Memory as IsMemory};
ghost use Rattle.halls.specs.Faults.{fault_told, offered_of, heard_of, said_of, said_output, closed_of, recorded_of, recorded_output};
ghost use Rattle.halls.specs.Scenes.{newly_opened};
ghost use Rattle.halls.specs.States.{setting_of, numbers_in, is_active, offer_left, hear_left, close_left};
ghost use Rattle.halls.specs.Tills.{held_by};

use crate::ruled::offer_by;
use crate::state::{Active, State};
use ballots::ballot::Ballot;
use basis::heard::Heard;
use basis::refusal::Refusal;
use broadcast::calls::ROUNDS;
use coins::dealt::DealtCoin;
use outcomes::opening_record::OpeningRecord;
use phases::phased::TwoPhase;
use phases::round::PhasedRound;
use replica::states::Fresh;
use scripts::command::RuleName;
use sheets::kinds::{Takings, TakingsRow};
use sheets::sheet::Sheet;
use slots::places::places_in;
use slots::slot::Slot;
use std::alloc::{AllocError, AllocFailed, Global};
use std::mem::replace;

// Why a till does not do what a line asks.
#[derive(Drop)]
pub enum Fault {
    // the line does not fit the hall or the till's state
    Misplaced,
    // the replica refuses
    Refused(Refusal),
    // memory ran out
    Memory,
}

impl From<Refusal> for Fault {
    ghost from_gives = { λ refusal e. e ≡ IsRefused refusal };

    fn from(refusal: Refusal) -> Fault {
        Fault::Refused(refusal)
    }
}

impl From<AllocError> for Fault {
    ghost from_gives = { λ e fault. fault ≡ IsMemory };

    fn from(_e: AllocError) -> Fault {
        Fault::Memory
    }
}

impl<T: Drop> From<AllocFailed<T>> for Fault {
    ghost from_gives = { λ e fault. fault ≡ IsMemory };

    fn from(_e: AllocFailed<T>) -> Fault {
        Fault::Memory
    }
}

#[derive(Drop)]
pub struct Till {
    state: State,
    records: Vec<OpeningRecord>,
    rounds: Vec<PhasedRound>,
    places: Vec<TakingsRow>,
    coin: DealtCoin,
}

fn vacant_record() -> OpeningRecord {
    OpeningRecord {
        slot: Slot { delivered: None },
        ballot: Ballot::unopened(),
    }
}

impl Till {
    // Opens till `number` of a hall of n, with tables and a coin of its own.
    pub fn open(heap: Global, n: u8, number: u8, coin: u16) -> Result<Till, Fault>
        ensures numbers { IfOk result (λ t. numbers_in t.state ≡ Some (record { n = n; own = number })) }
        ensures coin { IfOk result (λ t. t.coin ≡ record { numbers = replicate 16 coin }) }
        ensures opened { (rule : AnyRule) → IfOk result (λ t. Opened (setting_of rule) n number (held_by t)) }
        ensures holds { IfOk result (λ t. held_by t ≡ newly_opened n coin) }
        ensures fails { T (listed n) → number < n → IfErr result (λ e. e ≡ IsMemory) }
    {
        let size = usize::from(n);
        let mut records = vec![in heap; vacant_record(); size]?;
        let mut rounds = vec![in heap; PhasedRound::default(); ROUNDS * size]?;
        let mut places = vec![in heap; Takings::empty_row(); places_in(n)]?;
        let fresh = Fresh::open::<Takings, TwoPhase>(
            n,
            number,
            records.as_mut_slice(),
            rounds.as_mut_slice(),
            places.as_mut_slice(),
        )?;
        Ok(Till {
            state: State::Fresh(fresh),
            records,
            rounds,
            places,
            coin: DealtCoin::same(coin),
        })
    }

    pub fn has_offered(&self) -> bool
        ensures { result ≡ is_active self.now.state }
    {
        matches!(self.state, State::Active(_))
    }

    // Offers takings, where the till has not offered yet. A refused offer leaves it as it was.
    pub fn offer(&mut self, rule: RuleName, sheet: &Takings) -> Result<(), Fault>
        ensures numbers { numbers_in self.new.state ≡ numbers_in self.old.state }
        ensures answer { fault_told result ≡ offered_of rule self.old.state (held_by self.old) }
        ensures left { held_by self.new ≡ offer_left rule self.old.state (takings_bytes sheet.now) (held_by self.old) }
    {
        if self.has_offered() {
            return Err(Fault::Misplaced);
        }
        let State::Fresh(fresh) = replace(&mut self.state, State::Gone) else {
            return Err(Fault::Misplaced);
        };
        let records = self.records.as_mut_slice();
        let rounds = self.rounds.as_mut_slice();
        let places = self.places.as_mut_slice();
        let coin = &mut self.coin;
        match offer_by(rule, fresh, sheet, records, rounds, places, coin) {
            Ok(running) => {
                self.state = State::Active(Active::Running(running));
                Ok(())
            }
            Err((fresh, refusal)) => {
                self.state = State::Fresh(fresh);
                Err(Fault::Refused(refusal))
            }
        }
    }

    // Hears a packet from a sender, if the till has offered.
    pub fn hear(&mut self, rule: RuleName, sender: u8, packet: &[u8]) -> Result<Heard, Fault>
        ensures state { self.new.state ≡ self.old.state }
        ensures answer { fault_told result ≡ heard_of rule self.old.state sender packet.now (held_by self.old) }
        ensures left { held_by self.new ≡ hear_left rule self.old.state sender packet.now (held_by self.old) }
    {
        let State::Active(active) = &self.state else {
            return Err(Fault::Misplaced);
        };
        let records = self.records.as_mut_slice();
        let rounds = self.rounds.as_mut_slice();
        let places = self.places.as_mut_slice();
        let coin = &mut self.coin;
        Ok(active.hear_by(rule, sender, packet, records, rounds, places, coin)?)
    }

    // Writes the first message that the till has said at or after a position, and answers its position.
    pub fn say(&self, rule: RuleName, from: u32, out: &mut [u8]) -> Result<Option<u32>, Fault>
        ensures answer { fault_told result ≡ said_of rule self.now.state from out.old (held_by self.now) }
        ensures output { out.new ≡ said_output rule self.now.state from out.old (held_by self.now) }
    {
        let State::Active(active) = &self.state else {
            return Err(Fault::Misplaced);
        };
        let records = self.records.as_slice();
        let rounds = self.rounds.as_slice();
        let places = self.places.as_slice();
        let coin = &self.coin;
        Ok(active.say_by(rule, from, out, records, rounds, places, coin)?)
    }

    // Closes the replica, where it runs.
    pub fn close(&mut self) -> Result<(), Fault>
        ensures numbers { numbers_in self.new.state ≡ numbers_in self.old.state }
        ensures answer { (rule : AnyRule) → fault_told result ≡ closed_of rule self.old.state (held_by self.old) }
        ensures left { (rule : AnyRule) → held_by self.new ≡ close_left rule self.old.state (held_by self.old) }
    {
        match replace(&mut self.state, State::Gone) {
            State::Active(Active::Running(running)) => {
                let records = self.records.as_slice();
                let rounds = self.rounds.as_slice();
                let places = self.places.as_slice();
                match running.close::<Takings, TwoPhase>(records, rounds, places) {
                    Ok(closed) => {
                        self.state = State::Active(Active::Closed(closed));
                        Ok(())
                    }
                    Err((running, refusal)) => {
                        self.state = State::Active(Active::Running(running));
                        Err(Fault::Refused(refusal))
                    }
                }
            }
            other => {
                self.state = other;
                Err(Fault::Misplaced)
            }
        }
    }

    // Writes the closing record of a closed till and answers its length.
    pub fn record(&self, out: &mut [u8]) -> Result<usize, Fault>
        ensures answer { fault_told result ≡ recorded_of self.now.state out.old (held_by self.now) }
        ensures output { out.new ≡ recorded_output self.now.state out.old (held_by self.now) }
    {
        let State::Active(Active::Closed(closed)) = &self.state else {
            return Err(Fault::Misplaced);
        };
        let records = self.records.as_slice();
        let rounds = self.rounds.as_slice();
        let places = self.places.as_slice();
        Ok(closed.record::<Takings, TwoPhase, DealtCoin>(out, records, rounds, places)?)
    }
}
