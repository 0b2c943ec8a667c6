// What is checked of an evening at rest, and of closing records.
use crate::counts::{more, more_at};
use crate::dealing::{Deal, Draft};
use crate::evening::{Evening, Fault, ROOM};
use crate::judging::{are_apart, are_same, are_too_few, is_missing};
use crate::seat::Seat;
use ballots::ballot::{Ballot, Stage};
use coins::tossed_round::TossedRound;
use halls::packet::message_in;
use messages::message::{BitSet, Message, Phase};
use phases::round::PhasedRound;

// How long the longest closing record is: its first field, and sixteen labels.
pub const RECORD_LONGEST: usize = 7 + 16 * 40;

const NOT_DELIVERED: Fault = "an honest sheet is not delivered at rest";

const WAITING: Fault = "a ballot waits at rest";

const DISAGREE: Fault = "two decide a ballot differently";

const CLOSES_EARLY: Fault = "a ballot is undecided and close does not refuse";

const CANNOT_CLOSE: Fault = "all is decided at rest and close refuses";

const RECORDS_DIFFER: Fault = "closing records differ";

const LIST_DIFFERS: Fault = "a list differs from its record";

const ANOTHER_SHEET: Fault = "a record has another sheet than was offered";

const TOO_FEW_SHEETS: Fault = "a record has less than f + 2 sheets";

impl<S: Draft, C: Deal, const THIRD: bool> Seat<S, C, THIRD> {
    // The round of a decision: the first with the verdict of that bit alone, and a coin that shows it.
    fn deciding_round(&self, slot: u8, bit: bool) -> usize {
        let opening = match self.records.get(usize::from(slot)) {
            Some(record) => record.ballot.opening.verdict,
            None => None,
        };
        if bit && opening == Some(BitSet::One) {
            return 0;
        }
        for round in 1..16u8 {
            let row = usize::from(slot) * 15 + usize::from(round) - 1;
            let verdict = match self.rounds.get(row) {
                Some(PhasedRound { verdict, .. }) => *verdict,
                None => None,
            };
            if slot < 16 && verdict == Some(BitSet::from(bit)) {
                let shown = self.coin.bit(TossedRound {
                    ballot: slot,
                    round,
                });
                if shown == Some(bit) {
                    return usize::from(round);
                }
            }
        }
        16
    }

    fn has_all_decided(&self) -> bool {
        self.records
            .as_slice()
            .iter()
            .all(|record| record.ballot.decided.is_some())
    }
}

// The bytes of a sheet, in a message.
fn message_of<S: Draft>(slot: u8, sheet: S) -> [u8; ROOM] {
    let mut out = [0u8; ROOM];
    let phase = Phase::Send;
    let _ = Message::Sheet { phase, slot, sheet }.write(&mut out);
    out
}

impl<S: Draft, C: Deal, const THIRD: bool> Evening<S, C, THIRD> {
    // Checks and counts a ballot of a replica at rest.
    fn check_ballot(&mut self, number: u8, slot: u8) -> Result<Option<bool>, Fault> {
        let Some(seat) = self.seats.get(usize::from(number)) else {
            return Ok(None);
        };
        let Some(record) = seat.records.get(usize::from(slot)) else {
            return Ok(None);
        };
        if is_missing(self.honest, slot, record.slot.delivered) {
            return Err(NOT_DELIVERED);
        }
        let Ballot { stage, decided, .. } = record.ballot;
        if stage != Stage::Finished {
            return Err(WAITING);
        }
        match decided {
            Some(false) => more_at(&mut self.counts.zero, seat.deciding_round(slot, false)),
            Some(true) => more_at(&mut self.counts.one, seat.deciding_round(slot, true)),
            None => more(&mut self.counts.spent),
        }
        Ok(decided)
    }

    // All have gone through their rounds, and nobody decides differently.
    pub fn check_ballots(&mut self) -> Result<(), Fault> {
        for slot in 0..self.n {
            let mut common = None;
            for number in 0..self.honest {
                let decided = self.check_ballot(number, slot)?;
                if are_apart(common, decided) {
                    return Err(DISAGREE);
                }
                common = common.or(decided);
            }
        }
        Ok(())
    }

    // One closes, if it runs: only where all is decided. Its record is checked.
    pub fn try_close(&mut self, number: u8) -> Result<(), Fault> {
        let Some(seat) = self.seats.get_mut(usize::from(number)) else {
            return Ok(());
        };
        let decided = seat.has_all_decided();
        let Some(answer) = seat.close() else {
            return Ok(());
        };
        more(&mut self.counts.calls);
        if let Err(refusal) = answer {
            let number = usize::from(refusal.reason.number());
            more_at(&mut self.counts.refusals, number);
            return Ok(());
        }
        more(&mut self.counts.closings);
        if !decided {
            return Err(CLOSES_EARLY);
        }
        self.check_record(number)
    }

    // At rest every replica with all decided can close, and all records are the same.
    pub fn check_closings(&mut self) -> Result<(), Fault> {
        for number in 0..self.honest {
            self.try_close(number)?;
            self.check_record(number)?;
        }
        Ok(())
    }

    // A closed replica's record is that of the others, and its list says the same.
    fn check_record(&mut self, number: u8) -> Result<(), Fault> {
        let Some(seat) = self.seats.get(usize::from(number)) else {
            return Ok(());
        };
        let mut out = [0u8; RECORD_LONGEST];
        let Some(len) = seat.record(&mut out) else {
            if seat.has_all_decided() {
                return Err(CANNOT_CLOSE);
            }
            return Ok(());
        };
        more(&mut self.counts.calls);
        if self.record_len.is_none() {
            self.record_len = Some(len);
            self.record = out;
        }
        let first = self.record_len.unwrap_or(0);
        let first = self.record.get(..first).unwrap_or(&[]);
        if !are_same(first, out.get(..len).unwrap_or(&[])) {
            return Err(RECORDS_DIFFER);
        }
        self.check_fields(number, out.get(7..len).unwrap_or(&[]))
    }

    // The fields after the first are those of the list, at least f + 2, with the sheets that honest ones offered.
    fn check_fields(&mut self, number: u8, fields: &[u8]) -> Result<(), Fault> {
        let mut rest = fields;
        let mut many = 0u8;
        for index in 0..16usize {
            let Some(seat) = self.seats.get(usize::from(number)) else {
                return Ok(());
            };
            more(&mut self.counts.calls);
            let Some(entry) = seat.listed(index) else {
                break;
            };
            let field = message_in(rest);
            let listed = message_of(entry.replica, entry.sheet);
            if field.get(1..) != message_in(&listed).get(1..) {
                return Err(LIST_DIFFERS);
            }
            if let Some(other) = self.seats.get(usize::from(entry.replica)) {
                if listed != message_of(entry.replica, *other.sheet) {
                    return Err(ANOTHER_SHEET);
                }
            }
            rest = rest.get(field.len()..).unwrap_or(&[]);
            many = many.saturating_add(1);
        }
        if !rest.is_empty() {
            return Err(LIST_DIFFERS);
        }
        if are_too_few(self.n, many) {
            return Err(TOO_FEW_SHEETS);
        }
        Ok(())
    }
}
