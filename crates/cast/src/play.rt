// The hall at play: its tills offer, hear what faulty tills say, and hear each other until nothing is new.
ghost use Rattle.std.specs.Prelude.{◌≡◌, ◌+◌, ◌*◌, T, IfOk, slice_get};
ghost use Rattle.basis.specs.Halls.{listed};
ghost use Rattle.cast.specs.States.{has_offered_at, forging, fault_told, at_till, till_hears, till_says};

use crate::script::{Forgery, Offer};
use crate::till::{Fault, Till};
use basis::heard::Heard;
use basis::member::Member;
use messages::message::Message;
use messages::write::TAKINGS_MESSAGE;
use sheets::kinds::Takings;
use sheets::sheet::Sheet;
use std::alloc::Global;

// The size stands beside the tills: all calls take it as a `u8`, which the length of a Vec is not.
#[derive(Drop)]
pub struct Hall {
    n: u8,
    tills: Vec<Till>,
    ghost listed: { T (listed n) },
}

// How many sweeps a rest took, and how many messages were new in it.
#[derive(Clone, Copy)]
pub struct Rested {
    pub sweeps: u64,
    pub messages: u64,
}

impl Hall {
    // Opens all tills of a hall of n; refused where no hall has that size.
    pub fn open(heap: Global, n: u8) -> Result<Hall, Fault>
        ensures { IfOk result (λ h. h.n ≡ n) }
    {
        let Member { n, .. } = Member::new(n, 0)?;
        let tills = (0..n)
            .map(|number| Till::open(heap, n, number))
            .try_collect(heap)?;
        Ok(Hall { n, tills })
    }

    // How many tills the hall has.
    pub fn size(&self) -> u8
        ensures { result ≡ self.now.n }
    {
        self.n
    }

    pub fn tills(&self) -> &[Till] {
        self.tills.as_slice()
    }

    // A till of the hall offers.
    pub fn offer(&mut self, offer: Offer) -> Result<(), Fault> {
        match self.tills.get_mut(usize::from(offer.till)) {
            Some(till) => till.offer(offer.amount),
            None => Err(Fault::Misplaced),
        }
    }

    // Whether a till may be faulty towards another: the one has not offered, and the other has.
    pub fn may_forge(&self, forgery: Forgery) -> bool
        ensures { result ≡ forging (has_offered_at self.now.tills.items forgery.from) (has_offered_at self.now.tills.items forgery.to) }
    {
        let from = self.tills.get(usize::from(forgery.from));
        let to = self.tills.get(usize::from(forgery.to));
        match (from, to) {
            (Some(from), Some(to)) => !from.has_offered() && to.has_offered(),
            _ => false,
        }
    }

    // A till hears a faulty one say a sheet: the message is written, and heard.
    pub fn forge(&mut self, forgery: Forgery, sheet: Takings) -> Result<Heard, Fault> {
        let Forgery {
            from,
            to,
            phase,
            slot,
            ..
        } = forgery;
        let mut packet = [0u8; TAKINGS_MESSAGE];
        let message = Message::Sheet { phase, slot, sheet };
        let len = message.write(&mut packet)?;
        self.hear(to, from, &packet[..len])
    }

    // A till says its first message at or after a position, if one is left.
    fn say(&self, from: u8, position: u32, packet: &mut [u8]) -> Result<Option<u32>, Fault>
        ensures { fault_told result ≡ at_till (slice_get self.now.tills.items from) (till_says position packet.old) }
    {
        match self.tills.get(usize::from(from)) {
            Some(till) => till.say_from(position, packet),
            None => Err(Fault::Misplaced),
        }
    }

    // A till hears a packet from another.
    fn hear(&mut self, to: u8, from: u8, packet: &[u8]) -> Result<Heard, Fault>
        ensures { fault_told result ≡ at_till (slice_get self.old.tills.items to) (till_hears from packet.now) }
    {
        match self.tills.get_mut(usize::from(to)) {
            Some(till) => till.hear(from, packet),
            None => Err(Fault::Misplaced),
        }
    }

    // How many messages a till says at most: one send, and an echo and a ready for each slot.
    fn most_said(&self) -> u32
        ensures { result ≡ 2 * self.now.n + 1 }
    {
        2 * u32::from(self.n) + 1
    }

    // A loop for its effect, as the two below: each turn changes the tills.
    // Passes on all messages of a till to another, positions rising; how many were new.
    fn pass_all(&mut self, from: u8, to: u8) -> u64 {
        let mut packet = [0u8; TAKINGS_MESSAGE];
        let mut messages = 0u64;
        let mut position = 0u32;
        for _ in 0..self.most_said() {
            let Ok(Some(said)) = self.say(from, position, &mut packet) else {
                break;
            };
            if let Ok(Heard::New) = self.hear(to, from, &packet) {
                messages = messages.saturating_add(1);
            }
            position = said.saturating_add(1);
        }
        messages
    }

    // All others hear a till, numbers rising; how many messages were new.
    fn tell_all(&mut self, from: u8) -> u64 {
        let mut messages = 0u64;
        for to in 0..self.n {
            if to != from {
                messages = messages.saturating_add(self.pass_all(from, to));
            }
        }
        messages
    }

    // All tills are heard by all others, numbers rising; how many messages were new.
    fn sweep(&mut self) -> u64 {
        let mut messages = 0u64;
        for from in 0..self.n {
            messages = messages.saturating_add(self.tell_all(from));
        }
        messages
    }

    // How many sweeps there can be: each but the last records a message in one of the n(2n + 1) places of one of n tills.
    fn sweep_limit(&self) -> u64
        ensures { result ≡ self.now.n * self.now.n * (2 * self.now.n + 1) + 1 }
    {
        let n = u64::from(self.n);
        n * n * (2 * n + 1) + 1
    }

    // The tills that have offered hear each other, until a sweep brings nothing new. A loop for its effect, as those above.
    pub fn rest(&mut self) -> Rested {
        let mut rested = Rested {
            sweeps: 0,
            messages: 0,
        };
        for sweeps in 1..=self.sweep_limit() {
            let messages = self.sweep();
            rested.sweeps = sweeps;
            rested.messages = rested.messages.saturating_add(messages);
            if messages == 0 {
                break;
            }
        }
        rested
    }
}
