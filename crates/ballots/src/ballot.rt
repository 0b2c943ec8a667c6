// The record of a ballot, and what can happen to it.
use messages::message::BitSet;
use phases::round::PhasedRound;

// The round that a ballot is in, from 0 to 15; finished where it has gone on from all of them.
// An `Option` is no plainer: `None` would read as no round yet, and it is the last stage of all.
#[derive(Clone, Copy, PartialEq, Eq, Debug)]
pub enum Stage {
    InRound(u8),
    Finished,
}

// What a ballot keeps outside of its later rounds: the opening round, its stage, the decided bit.
#[derive(Clone, Copy, PartialEq, Eq, Debug)]
pub struct Ballot {
    pub opening: PhasedRound,
    pub stage: Stage,
    pub decided: Option<bool>,
}

// What a ballot reacts to: its proposal, a vote that was heard, the verdict of the round that it is in with the coin's
// bit.
#[derive(Clone, Copy, PartialEq, Eq, Debug)]
pub enum Event {
    Proposal(bool),
    Vote,
    Verdict(BitSet, bool),
}
