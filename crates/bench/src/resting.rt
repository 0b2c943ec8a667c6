// The part of an evening in which the honest replicas hear all that the others said, until nothing is new.
use crate::dealing::{Deal, Draft};
use crate::evening::{Evening, Fault, PLACES, ROOM};
use basis::replicas::{contains, with};
use halls::packet::message_in;

// More sweeps than bring anything new: each tells a message to somebody.
const MOST_SWEEPS: u32 = 0x10_0000;

const NO_REST: Fault = "no rest";

const LOOK_CHANGES: Fault = "look changes what is said at rest";

// How many sweeps the faulty replicas go on speaking.
const LIES: u32 = 40;

// Where a message of a replica stands among its messages: by tag, slot, round and the value's two lowest bits, which tell
// all that a replica says apart.
pub fn place_of(from: u8, position: u32) -> usize {
    let tag = (position >> 20 & 3) * 4 + (position >> 16 & 3);
    let place = tag * 1024 + (position >> 8 & 255) * 4 + (position & 3);
    usize::from(from) * PLACES + place as usize
}

impl<S: Draft, C: Deal, const THIRD: bool> Evening<S, C, THIRD> {
    // Tells a message to those of some that were not told it; whether there was one.
    fn pass_on(&mut self, from: u8, said: u32, hearers: u16, packet: &[u8]) -> Result<bool, Fault> {
        let Some(told) = self.told.get_mut(place_of(from, said)) else {
            return Ok(false);
        };
        let left = hearers & !*told;
        *told |= hearers;
        let mut any = false;
        for to in 0..self.honest {
            if to != from && contains(left, to) {
                any = true;
                self.hear(from, to, packet)?;
            }
        }
        Ok(any)
    }

    // Whom a message reaches while messages come as they may: any; in some evenings the last slot's sheets rather reach the
    // camp, and a vote those to whom the faulty ones say the same bit.
    fn reached(&mut self, said: u32) -> u16 {
        let any = (self.draws.number() % 65536) as u16;
        if self.seed % 2 == 1 || self.draws.below(8) == 0 {
            return any;
        }
        let of_last = said >> 12 & 15 == u32::from(self.n.saturating_sub(1));
        match (said >> 16, said % 256) {
            (0x10..=0x12, _) if of_last => self.camp,
            (0x20 | 0x21, 0) => !self.camp,
            (0x20 | 0x21, 1) => self.camp,
            _ => any,
        }
    }

    // Tells all that one says to some, or if `loosely` to any of them; whether there was anything to tell.
    fn tell(&mut self, from: u8, members: u16, loosely: bool) -> Result<bool, Fault> {
        let mut any = false;
        let mut position = 0;
        let mut out = [0u8; ROOM];
        for _ in 0..PLACES {
            let Some(said) = self.say(from, position, &mut out) else {
                break;
            };
            let reached = if loosely {
                self.reached(said)
            } else {
                u16::MAX
            };
            any |= self.pass_on(from, said, members & reached, message_in(&out))?;
            position = said.saturating_add(1);
        }
        Ok(any)
    }

    // Some are told what the others of them say; whether there was anything to tell.
    fn sweep(&mut self, members: u16, loosely: bool) -> Result<bool, Fault> {
        let mut any = false;
        for from in 0..self.honest {
            if contains(members, from) {
                any |= self.tell(from, members, loosely)?;
            }
        }
        Ok(any)
    }

    // The faulty replicas say something to all, and some of these try to close.
    fn lie_to_all(&mut self) -> Result<(), Fault> {
        for to in 0..self.honest {
            if self.draws.below(8) == 0 {
                self.try_close(to)?;
            }
            for _ in 0..u32::from(self.n.saturating_sub(self.honest)) * u32::from(self.n) {
                self.lie(to)?;
            }
        }
        Ok(())
    }

    // Some offer and go ahead, while the others hear nothing.
    pub fn go_ahead(&mut self) -> Result<(), Fault> {
        let mut members = 0;
        for number in 0..self.honest.min(16) {
            if self.draws.below(self.n.max(1)) > 0 {
                members = with(members, number);
                self.offer(number)?;
            }
        }
        for _ in 0..self.draws.below(48) {
            self.lie_to_all()?;
            let _ = self.sweep(members, true)?;
        }
        Ok(())
    }

    // All offer and hear each other until nothing is left to tell. Then look brings nothing new to say.
    pub fn rest(&mut self) -> Result<(), Fault> {
        for number in 0..self.honest {
            self.offer(number)?;
        }
        let lies = if self.honest < self.n { LIES } else { 0 };
        for sweep in 0..MOST_SWEEPS {
            if sweep < lies {
                self.lie_to_all()?;
                let _ = self.sweep(u16::MAX, true)?;
                continue;
            }
            if self.sweep(u16::MAX, false)? {
                continue;
            }
            for number in 0..self.honest {
                self.look(number);
            }
            if self.sweep(u16::MAX, false)? {
                return Err(LOOK_CHANGES);
            }
            return Ok(());
        }
        Err(NO_REST)
    }
}
