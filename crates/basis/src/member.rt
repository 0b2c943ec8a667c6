// A replica's place in its hall.
ghost use Rattle.std.specs.Prelude.{◌<◌, T};
ghost use Rattle.basis.specs.Halls.{listed};

use crate::hall::is_listed;
use crate::refusal::{Reason, Refusal};

// A listed hall size, and the own number below it.
#[derive(Clone, Copy, PartialEq, Eq, Debug)]
pub struct Member {
    pub n: u8,
    pub own: u8,
    ghost listed: { T (listed n) },
    ghost below: { own < n },
}

impl Member {
    ghost use Rattle.std.specs.Prelude.{◌≡◌};
    ghost use Rattle.basis.specs.Members.{member_told, member_made};

    // A replica's place in a hall of a listed size; refused where the size is not listed or the number not below it.
    pub fn new(n: u8, own: u8) -> Result<Member, Refusal>
        ensures { member_told result ≡ member_made n own }
    {
        if !is_listed(n) {
            return Err(Reason::HallSizeNotListed.at(0));
        }
        if own >= n {
            return Err(Reason::OwnNumberTooLarge.at(0));
        }
        Ok(Member { n, own })
    }
}
