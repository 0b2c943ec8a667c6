// A share that a coin is handed.

// The share of a sender for a ballot and a round.
#[derive(Clone, Copy, PartialEq, Eq, Debug)]
pub struct Share {
    pub ballot: u8,
    pub round: u8,
    pub sender: u8,
    pub value: u8,
}
