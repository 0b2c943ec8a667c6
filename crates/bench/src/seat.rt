// An honest replica in its state, with its tables, its coin and the sheet that it offers.
use crate::dealing::Deal;
use crate::evening::{Fault, MEMORY};
use ballots::ballot::Ballot;
use basis::heard::Heard;
use basis::refusal::Refusal;
use broadcast::calls::ROUNDS;
use closing::list::ListEntry;
use halls::state::{Active, State};
use outcomes::opening_record::OpeningRecord;
use phases::phased::Phased;
use phases::round::PhasedRound;
use replica::offered::Offered;
use replica::states::Fresh;
use sheets::sheet::Sheet;
use slots::places::places_in;
use slots::slot::Slot;
use std::alloc::Global;
use std::mem::replace;

const NOT_OPENED: Fault = "a replica does not open";

const NOT_OFFERED: Fault = "a replica does not offer";

// Under the three-phase rule where `THIRD` is set, else under the two-phase one.
#[derive(Drop)]
pub struct Seat<S: Sheet, C: Deal, const THIRD: bool> {
    state: State,
    pub records: Vec<OpeningRecord>,
    pub rounds: Vec<PhasedRound>,
    places: Vec<S::Row>,
    // in boxes, so that a replica is of one size whatever they are
    pub coin: Box<C>,
    pub sheet: Box<S>,
}

impl<S: Sheet, C: Deal, const THIRD: bool> Seat<S, C, THIRD> {
    pub fn open(heap: Global, n: u8, own: u8, sheet: S, coin: C) -> Result<Self, Fault> {
        let size = usize::from(n);
        let record = OpeningRecord {
            slot: Slot { delivered: None },
            ballot: Ballot::unopened(),
        };
        let mut records = vec![in heap; record; size].or(Err(MEMORY))?;
        let mut rounds = vec![in heap; PhasedRound::default(); ROUNDS * size].or(Err(MEMORY))?;
        let mut places = Vec::new(heap);
        for _ in 0..places_in(n) {
            places.push(S::empty_row()).or(Err(MEMORY))?;
        }
        let fresh = Fresh::open::<S, Phased<THIRD>>(
            n,
            own,
            records.as_mut_slice(),
            rounds.as_mut_slice(),
            places.as_mut_slice(),
        )
        .or(Err(NOT_OPENED))?;
        Ok(Seat {
            state: State::Fresh(fresh),
            records,
            rounds,
            places,
            coin: Box::new(heap, coin).or(Err(MEMORY))?,
            sheet: Box::new(heap, sheet).or(Err(MEMORY))?,
        })
    }

    // Offers its sheet, where it has not; whether it does.
    pub fn offer(&mut self) -> Result<bool, Fault> {
        match replace(&mut self.state, State::Gone) {
            State::Fresh(fresh) => {
                let records = self.records.as_mut_slice();
                let rounds = self.rounds.as_mut_slice();
                let places = self.places.as_mut_slice();
                let coin = &mut *self.coin;
                let offered = fresh.offer::<S, Phased<THIRD>, C>(
                    &*self.sheet,
                    records,
                    rounds,
                    places,
                    coin,
                );
                let running = offered.or(Err(NOT_OFFERED))?;
                self.state = State::Active(Active::Running(running));
                Ok(true)
            }
            other => {
                self.state = other;
                Ok(false)
            }
        }
    }

    // Hears a packet, where it has offered.
    pub fn hear(&mut self, sender: u8, packet: &[u8]) -> Option<Result<Heard, Refusal>> {
        let State::Active(active) = &self.state else {
            return None;
        };
        let records = self.records.as_mut_slice();
        let rounds = self.rounds.as_mut_slice();
        let places = self.places.as_mut_slice();
        let coin = &mut *self.coin;
        Some(active.hear::<S, Phased<THIRD>, C>(sender, packet, records, rounds, places, coin))
    }

    // Writes the first message that it has said at or after a position, and answers its position.
    pub fn say(&self, from: u32, out: &mut [u8]) -> Option<u32> {
        let State::Active(active) = &self.state else {
            return None;
        };
        let records = self.records.as_slice();
        let rounds = self.rounds.as_slice();
        let places = self.places.as_slice();
        active
            .say::<S, Phased<THIRD>, C>(from, out, records, rounds, places, &*self.coin)
            .unwrap_or(None)
    }

    pub fn look(&mut self) {
        let State::Active(active) = &self.state else {
            return;
        };
        let records = self.records.as_mut_slice();
        let rounds = self.rounds.as_mut_slice();
        let places = self.places.as_mut_slice();
        let coin = &mut *self.coin;
        let _ = active.look::<S, Phased<THIRD>, C>(records, rounds, places, coin);
    }

    // Closes, where it runs; the answer, if it does.
    pub fn close(&mut self) -> Option<Result<(), Refusal>> {
        match replace(&mut self.state, State::Gone) {
            State::Active(Active::Running(running)) => {
                let records = self.records.as_slice();
                let rounds = self.rounds.as_slice();
                let places = self.places.as_slice();
                match running.close::<S, Phased<THIRD>>(records, rounds, places) {
                    Ok(closed) => {
                        self.state = State::Active(Active::Closed(closed));
                        Some(Ok(()))
                    }
                    Err((running, refusal)) => {
                        self.state = State::Active(Active::Running(running));
                        Some(Err(refusal))
                    }
                }
            }
            other => {
                self.state = other;
                None
            }
        }
    }

    // Writes the closing record and answers its length, where it has closed.
    pub fn record(&self, out: &mut [u8]) -> Option<usize> {
        let State::Active(Active::Closed(closed)) = &self.state else {
            return None;
        };
        let records = self.records.as_slice();
        let rounds = self.rounds.as_slice();
        let places = self.places.as_slice();
        closed
            .record::<S, Phased<THIRD>, C>(out, records, rounds, places)
            .ok()
    }

    // The entry at an index of the list, where it has closed and there is one.
    pub fn listed(&self, index: usize) -> Option<ListEntry<S>> {
        let State::Active(Active::Closed(closed)) = &self.state else {
            return None;
        };
        let records = self.records.as_slice();
        let rounds = self.rounds.as_slice();
        let places = self.places.as_slice();
        closed
            .list::<S, Phased<THIRD>>(index, records, rounds, places)
            .ok()
    }
}
