// One till of the hall: its replica, in its state, and the tables that the till lends it.
ghost use Rattle.std.specs.Prelude.{◌≡◌, ◌<◌, T, true, false, is_ok, length, Some, Err, IfOk, IfErr};
ghost use Rattle.std.specs.Option.{option_map};
ghost use Rattle.sheets.specs.OfTakings.{takings_bytes};
ghost use Rattle.basis.specs.Halls.{listed};
ghost use Rattle.broadcast.specs.Calls.{Opened, Fresh as NotOffered, of_hall};
ghost use Rattle.sheets.specs.OfTakings.{takings_lawful, takings_rows};
ghost use Rattle.cast.specs.declared.till.Fault.TheVariants.{Refused, Memory as IsMemory};
ghost use Rattle.cast.specs.States.{is_fresh, is_running, numbers_in, offer_left, delivered_of, fault_told, heard_of, heard_left, offered_of, said_of, said_output};

use crate::script::Amount;
use basis::heard::Heard;
use basis::refusal::Refusal;
use broadcast::states::{Fresh, Running};
use messages::read::LAST_ROUND;
use messages::tags::VoteTags;
use sheets::kinds::{Takings, TakingsRow};
use sheets::sheet::Sheet;
use slots::places::places_in;
use slots::slot::Slot;
use std::alloc::{AllocError, AllocFailed, Global};
use std::mem::replace;

// Why a till does not do what a line asks.
#[derive(Drop)]
pub enum Fault {
    // the line does not fit the hall or the till's state
    Misplaced,
    // the replica refuses
    Refused(Refusal),
    // memory ran out
    Memory,
}

impl From<Refusal> for Fault {
    ghost from_gives = { λ refusal e. e ≡ Refused refusal };

    fn from(refusal: Refusal) -> Fault {
        Fault::Refused(refusal)
    }
}

impl From<AllocError> for Fault {
    ghost from_gives = { λ e fault. fault ≡ IsMemory };

    fn from(_e: AllocError) -> Fault {
        Fault::Memory
    }
}

impl<T: Drop> From<AllocFailed<T>> for Fault {
    ghost from_gives = { λ e fault. fault ≡ IsMemory };

    fn from(_e: AllocFailed<T>) -> Fault {
        Fault::Memory
    }
}

// A replica that may offer, one that has, and what stands while an offer is on its way: an Option of the first two would
// have the same third case, as None, in each match.
#[derive(Drop)]
enum State {
    Fresh(Fresh),
    Running(Running),
    Gone,
}

impl State {
    // Offers a sheet, if that was not done yet. A refused offer leaves the replica fresh.
    fn offer(
        self,
        records: &mut [Slot],
        rounds: usize,
        places: &mut [TakingsRow],
        sheet: &Takings,
    ) -> (State, Result<(), Fault>)
        ensures again { is_fresh self ≡ false → result ≡ (self, Err Fault.Misplaced) }
        ensures first { is_fresh self ≡ true → is_running result.0 ≡ is_ok result.1 }
        ensures numbers { numbers_in result.0 ≡ numbers_in self }
        ensures answer { fault_told result.1 ≡ offered_of self (length records.old) rounds (length places.old) }
        ensures left { record { records = records.exit.now; places = places.new } ≡ offer_left self rounds (takings_bytes sheet.now) (record { records = records.entry.now; places = places.old }) }
    {
        match self {
            State::Fresh(fresh) => match fresh.offer(records, rounds, places, sheet) {
                Ok(running) => (State::Running(running), Ok(())),
                Err((fresh, refusal)) => (State::Fresh(fresh), Err(refusal.into())),
            },
            other => (other, Err(Fault::Misplaced)),
        }
    }
}

// The tables and the number of round records are lent as they stand: each call takes the three by themselves.
#[derive(Drop)]
pub struct Till {
    number: u8,
    state: State,
    records: Vec<Slot>,
    rounds: usize,
    places: Vec<TakingsRow>,
}

impl Till {
    // Opens till `number` of a hall of n, with tables of its own.
    pub fn open(heap: Global, n: u8, number: u8) -> Result<Till, Fault>
        ensures numbers { IfOk result (λ t. numbers_in t.state ≡ Some (record { n = n; own = number })) }
        ensures number { IfOk result (λ t. t.number ≡ number) }
        ensures opened { IfOk result (λ t. Opened takings_rows (of_hall n 12 takings_lawful) (record { life = NotOffered; slots = record { records = t.records.items; places = t.places.items }; rounds = t.rounds })) }
        ensures fails { T (listed n) → number < n → IfErr result (λ e. e ≡ IsMemory) }
    {
        let size = usize::from(n);
        let mut records = vec![in heap; Slot { delivered: None }; size]?;
        let rounds = usize::from(LAST_ROUND) * size;
        let mut places = vec![in heap; Takings::empty_row(); places_in(n)]?;
        let fresh = Fresh::open::<Takings>(
            n,
            number,
            records.as_mut_slice(),
            rounds,
            places.as_mut_slice(),
        )?;
        Ok(Till {
            number,
            state: State::Fresh(fresh),
            records,
            rounds,
            places,
        })
    }

    pub fn number(&self) -> u8
        ensures { result ≡ self.now.number }
    {
        self.number
    }

    pub fn has_offered(&self) -> bool
        ensures { result ≡ is_running self.now.state }
    {
        matches!(self.state, State::Running(_))
    }

    // Offers takings; misplaced where the till has offered, and refused where the amount is out of range.
    pub fn offer(&mut self, amount: Amount) -> Result<(), Fault>
        ensures again { is_running self.old.state ≡ true → result ≡ Err Fault.Misplaced }
        ensures done { is_ok result ≡ true → is_running self.new.state ≡ true }
        ensures numbers { numbers_in self.new.state ≡ numbers_in self.old.state }
    {
        if self.has_offered() {
            return Err(Fault::Misplaced);
        }
        let sheet = Takings::try_from(amount)?;
        let state = replace(&mut self.state, State::Gone);
        let records = self.records.as_mut_slice();
        let places = self.places.as_mut_slice();
        let (state, outcome) = state.offer(records, self.rounds, places, &sheet);
        self.state = state;
        outcome
    }

    // Hears a packet from a sender, if the till has offered.
    pub fn hear(&mut self, sender: u8, packet: &[u8]) -> Result<Heard, Fault>
        ensures state { self.new.state ≡ self.old.state }
        ensures left { record { records = self.new.records.items; places = self.new.places.items } ≡ heard_left self.old.state sender packet.now self.old.rounds (record { records = self.old.records.items; places = self.old.places.items }) }
        ensures answer { fault_told result ≡ heard_of self.old.state sender packet.now self.old.rounds (record { records = self.old.records.items; places = self.old.places.items }) }
    {
        let State::Running(running) = &self.state else {
            return Err(Fault::Misplaced);
        };
        let heard = running.hear::<Takings>(
            self.records.as_mut_slice(),
            self.rounds,
            self.places.as_mut_slice(),
            VoteTags::basic(),
            false,
            sender,
            packet,
        )?;
        Ok(heard)
    }

    // Writes the first message that the till has said at or after a position, and answers its position.
    pub fn say_from(&self, position: u32, packet: &mut [u8]) -> Result<Option<u32>, Fault>
        ensures answer { fault_told result ≡ said_of self.now.state position self.now.rounds (record { records = self.now.records.items; places = self.now.places.items }) packet.old }
        ensures output { packet.new ≡ said_output self.now.state position self.now.rounds (record { records = self.now.records.items; places = self.now.places.items }) packet.old }
    {
        let State::Running(running) = &self.state else {
            return Err(Fault::Misplaced);
        };
        let records = self.records.as_slice();
        let places = self.places.as_slice();
        Ok(running.say::<Takings>(records, self.rounds, places, position, packet)?)
    }

    // The takings that the till has delivered for a slot, if any.
    pub fn delivered(&self, slot: u8) -> Option<Takings>
        ensures { option_map takings_bytes result ≡ delivered_of self.now.state slot (record { records = self.now.records.items; places = self.now.places.items }) }
    {
        match &self.state {
            State::Running(running) => running.delivered(
                self.records.as_slice(),
                self.places.as_slice(),
                slot,
            ),
            _ => None,
        }
    }
}
