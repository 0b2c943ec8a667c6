// What faulty replicas say: lawful messages that differ from hearer to hearer, votes that split ballots, and unlawful ones.
use crate::dealing::{Deal, Draft, share_value};
use crate::evening::{Evening, Fault, ROOM};
use basis::replicas::contains;
use coins::tossed_round::TossedRound;
use messages::message::{BitSet, Message, Phase, Vote};

// The tag of third votes.
const THIRD_VOTE: u8 = 0x22;

impl<S: Draft, C: Deal, const THIRD: bool> Evening<S, C, THIRD> {
    // The round that the hearer's ballot is in, or the next, or any; seldom one that is out of range.
    fn round_for(&mut self, to: u8, slot: u8) -> u8 {
        let stage = match self.seats.get(usize::from(to)) {
            Some(seat) => match seat.records.get(usize::from(slot)) {
                Some(record) => u8::from(record.ballot.stage),
                None => 0,
            },
            None => 0,
        };
        match self.draws.below(16) {
            0 => self.draws.below(17),
            1 => stage.saturating_add(1),
            _ if stage < 16 => stage,
            _ => self.draws.below(16),
        }
    }

    // The bit that the hearer's coin shows.
    fn coin_bit(&self, to: u8, slot: u8, round: u8) -> Option<bool> {
        if slot >= 16 || round == 0 || round > 15 {
            return None;
        }
        let seat = self.seats.get(usize::from(to))?;
        seat.coin.bit(TossedRound {
            ballot: slot,
            round,
        })
    }

    // The bit that a faulty replica tells a hearer, by the evening's plan: to each camp another, or against the coin, or
    // any.
    fn bit_for(&mut self, to: u8, slot: u8, round: u8) -> bool {
        let of_camp = contains(self.camp, to);
        match self.seed % 4 {
            0 => of_camp,
            1 => match self.coin_bit(to, slot, round) {
                Some(bit) => !bit,
                None => of_camp,
            },
            2 => of_camp ^ (round % 2 == 1),
            _ => self.draws.below(2) == 0,
        }
    }

    // A sheet message: a send of the own sheet, of which each camp may be told another, or an echo or ready of any.
    fn forge_sheet(&mut self, from: u8, to: u8, slot: u8) -> Message<S> {
        let (phase, slot) = match self.draws.below(3) {
            0 if self.draws.below(16) > 0 => (Phase::Send, from),
            0 => (Phase::Send, slot),
            1 => (Phase::Echo, slot),
            _ => (Phase::Ready, slot),
        };
        let splits = self.seed % 3 == 0 && slot >= self.honest;
        let version = match self.draws.below(16) {
            0 => 2,
            _ => u8::from(splits && contains(self.camp, to)),
        };
        let sheet = S::draft(self.seed, slot, version);
        Message::Sheet { phase, slot, sheet }
    }

    // A set of votes, or a share: the one that rule or coin uses, where only one does.
    fn forge_later(&mut self, from: u8, to: u8, slot: u8, round: u8) -> Message<S> {
        let is_set = match (THIRD, C::uses_shares()) {
            (true, false) => true,
            (false, true) => false,
            _ => self.draws.below(2) == 0,
        };
        if is_set {
            let bits = match self.draws.below(3) {
                0 => BitSet::Both,
                _ => BitSet::from(self.bit_for(to, slot, round)),
            };
            return Message::Set {
                tag: THIRD_VOTE,
                slot,
                round,
                bits,
            };
        }
        let toss = u64::from(slot) * 15 + u64::from(round.saturating_sub(1));
        let share = match self.draws.below(4) {
            0 => self.draws.below(255),
            _ => share_value(self.n, from, self.seed, toss),
        };
        Message::Share { slot, round, share }
    }

    // Any message: half of them on the last slot, that of a faulty replica.
    fn forge(&mut self, from: u8, to: u8) -> Message<S> {
        let slot = match self.draws.below(2) {
            0 => self.n.saturating_sub(1),
            _ => self.draws.below(self.n.max(1)),
        };
        let round = self.round_for(to, slot);
        let mut bit = self.bit_for(to, slot, round);
        let vote = match self.draws.below(8) {
            0 | 1 => return self.forge_sheet(from, to, slot),
            2 | 3 => Vote::First,
            4 | 5 => Vote::Second,
            6 if !THIRD && !C::uses_shares() => Vote::Second,
            _ if !THIRD && !C::uses_shares() && self.draws.below(8) > 0 => Vote::First,
            _ => return self.forge_later(from, to, slot, round),
        };
        // first votes for both bits are lawful
        if vote == Vote::First && self.draws.below(2) == 0 {
            bit = !bit;
        }
        Message::Bit {
            vote,
            slot,
            round,
            bit,
        }
    }

    // A faulty replica says something to an honest one: now and then a damaged packet, and seldom under a number that is no
    // other replica's of the hall.
    pub fn lie(&mut self, to: u8) -> Result<(), Fault> {
        if self.honest >= self.n {
            return Ok(());
        }
        let from = self.honest + self.draws.below(self.n - self.honest);
        let mut packet = [0u8; ROOM];
        let mut len = self.forge(from, to).write(&mut packet).unwrap_or(0);
        match self.draws.below(48) {
            0 => len = len.saturating_sub(1),
            1 => len = len.saturating_add(1),
            2 => {
                len = len.saturating_sub(1);
                packet[2] = packet[2].wrapping_sub(1);
            }
            at @ 3..=8 => packet[usize::from(at) - 3] = self.draws.below(255),
            _ => {}
        }
        let sender = match self.draws.below(64) {
            0 => to,
            1 => self.n,
            _ => from,
        };
        self.hear(sender, to, packet.get(..len).unwrap_or(&[]))
    }
}
