// An evening: honest replicas, what faulty ones say to them, and the part of it in which messages come as they may.
use crate::checks::RECORD_LONGEST;
use crate::counts::{Counts, more, more_at};
use crate::dealing::{Deal, Draft};
use crate::draws::Draws;
use crate::judging::is_honest_to_another;
use crate::seat::Seat;
use halls::packet::message_in;
use std::alloc::Global;

// What must not be, in words.
pub type Fault = &'static str;

pub const MEMORY: Fault = "out of memory";

const NO_COIN: Fault = "a coin is refused";

const HONEST_REFUSED: Fault = "an honest message is refused";

// Room for a message of any kind, and for a byte more.
pub const ROOM: usize = 64;

// How many places there are for the messages of one replica, by their positions.
pub const PLACES: usize = 16384;

// The tags at which a replica begins to speak, the likelier ones more often.
const TAGS: [u32; 8] = [0x10, 0x11, 0x12, 0x20, 0x20, 0x21, 0x22, 0x30];

// How often a message comes.
const TIMES: [u8; 8] = [0, 1, 1, 1, 1, 1, 1, 2];

#[derive(Drop)]
pub struct Evening<S: Draft, C: Deal, const THIRD: bool> {
    pub n: u8,
    // how many are honest: the numbers from here on are faulty
    pub honest: u8,
    pub seats: Vec<Seat<S, C, THIRD>>,
    pub counts: Counts,
    pub draws: Draws,
    pub seed: u64,
    // replicas that the faulty ones and the lost messages tell apart from the others
    pub camp: u16,
    // to whom the messages of each honest replica were told
    pub told: Vec<u16>,
    // the first closing record that was written, with its length
    pub record: [u8; RECORD_LONGEST],
    pub record_len: Option<usize>,
}

impl<S: Draft, C: Deal, const THIRD: bool> Evening<S, C, THIRD> {
    // Opens the honest replicas of a hall of n, of which so many are faulty.
    pub fn open(heap: Global, n: u8, faulty: u8, seed: u64) -> Result<Self, Fault> {
        let honest = n.saturating_sub(faulty);
        let mut seats = Vec::new(heap);
        for own in 0..honest {
            let coin = C::deal(n, own, seed).or(Err(NO_COIN))?;
            let seat = Seat::open(heap, n, own, S::draft(seed, own, 0), coin)?;
            seats.push(seat).or(Err(MEMORY))?;
        }
        let told = vec![in heap; 0u16; PLACES * usize::from(honest)].or(Err(MEMORY))?;
        let mut draws = Draws(seed);
        let camp = (draws.number() % 65536) as u16;
        Ok(Evening {
            n,
            honest,
            seats,
            counts: Counts::NONE,
            draws,
            seed,
            camp,
            told,
            record: [0; RECORD_LONGEST],
            record_len: None,
        })
    }

    // One offers, where it has not.
    pub fn offer(&mut self, number: u8) -> Result<(), Fault> {
        if let Some(seat) = self.seats.get_mut(usize::from(number)) {
            if seat.offer()? {
                more(&mut self.counts.calls);
            }
        }
        Ok(())
    }

    pub fn look(&mut self, number: u8) {
        if let Some(seat) = self.seats.get_mut(usize::from(number)) {
            more(&mut self.counts.calls);
            seat.look();
        }
    }

    // One hears a packet. What an honest one has said may not be refused.
    pub fn hear(&mut self, from: u8, to: u8, packet: &[u8]) -> Result<(), Fault> {
        let Some(seat) = self.seats.get_mut(usize::from(to)) else {
            return Ok(());
        };
        let Some(answer) = seat.hear(from, packet) else {
            return Ok(());
        };
        more(&mut self.counts.calls);
        if let Err(refusal) = answer {
            let number = usize::from(refusal.reason.number());
            more_at(&mut self.counts.refusals, number);
            if is_honest_to_another(self.honest, from, to) {
                return Err(HONEST_REFUSED);
            }
        }
        Ok(())
    }

    // Writes what one says at or after a position, and answers its position.
    pub fn say(&mut self, from: u8, position: u32, out: &mut [u8]) -> Option<u32> {
        let seat = self.seats.get(usize::from(from))?;
        more(&mut self.counts.calls);
        seat.say(position, out)
    }

    // Some messages of one reach another, from anywhere on; some are lost, and some come twice.
    fn burst(&mut self, from: u8, to: u8) -> Result<(), Fault> {
        let tag = TAGS[usize::from(self.draws.below(8))];
        let mut position = tag * 65536 + u32::from(self.draws.below(255)) * 256;
        let mut out = [0u8; ROOM];
        for _ in 0..self.draws.below(12) {
            let Some(said) = self.say(from, position, &mut out) else {
                break;
            };
            for _ in 0..TIMES[usize::from(self.draws.below(8))] {
                self.hear(from, to, message_in(&out))?;
            }
            position = said.saturating_add(1);
        }
        Ok(())
    }

    // One thing happens to one replica.
    fn happen(&mut self) -> Result<(), Fault> {
        let to = self.draws.below(self.honest.max(1));
        let from = self.draws.below(self.honest.max(1));
        match self.draws.below(32) {
            0 | 1 => self.offer(to),
            2 => {
                self.look(to);
                Ok(())
            }
            3 => self.try_close(to),
            4..=11 => self.lie(to),
            _ if from != to => self.burst(from, to),
            _ => Ok(()),
        }
    }

    // The part in which messages come as they may.
    pub fn wander(&mut self) -> Result<(), Fault> {
        for number in 0..self.honest {
            if self.draws.below(4) > 0 {
                self.offer(number)?;
            }
        }
        let most = u64::from(self.n) * u64::from(self.n) * 8;
        for _ in 0..self.draws.number() % (most + 1) {
            self.happen()?;
        }
        Ok(())
    }
}
