// The set of one bit, made of the bit.
ghost use Rattle.std.specs.Prelude.{◌≡◌, cond};
ghost use Rattle.messages.specs.Tags.{bits_number};

use crate::message::BitSet;

impl From<bool> for BitSet {
    ghost from_gives = { λ bit set. bits_number set ≡ cond bit 2 1 };

    fn from(bit: bool) -> BitSet {
        if bit { BitSet::One } else { BitSet::Zero }
    }
}
