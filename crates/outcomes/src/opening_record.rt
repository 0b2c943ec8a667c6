// A row of the table of opening records.
use ballots::ballot::Ballot;
use slots::slot::Slot;

// What a replica keeps of one slot: its delivery, and what its ballot keeps outside of the later rounds.
#[derive(Clone, Copy, PartialEq, Eq, Debug)]
pub struct OpeningRecord {
    pub slot: Slot,
    pub ballot: Ballot,
}
