// A vote as a round rule is handed it.
use messages::message::BitSet;

// Its tag, the set of bits that it names (a vote for one bit names the set of that bit), and who cast it. The
// tag is a number, since each rule draws its own from an open range.
#[derive(Clone, Copy, PartialEq, Eq, Debug)]
pub struct CastVote {
    pub tag: u8,
    pub bits: BitSet,
    pub sender: u8,
}
