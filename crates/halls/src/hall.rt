// A hall: its size, its rule and its tills, whose evening goes on with each of its calls.
ghost use Rattle.std.specs.Prelude.{◌≡◌, T, length};
ghost use Rattle.basis.specs.Halls.{listed};
ghost use Rattle.halls.specs.Plays.{Seated, Played};

use crate::till::Till;
use scripts::command::RuleName;

// How long the longest closing record is: its first field, and one for each of the sixteen tills of the largest hall.
pub const RECORD_LONGEST: usize = 7 + 16 * 16;

// The size stands beside the tills: all calls take it as a `u8`, which the length of a Vec is not.
#[derive(Drop)]
pub struct Hall {
    pub(crate) n: u8,
    pub(crate) rule: RuleName,
    pub(crate) tills: Vec<Till>,
    ghost listed: { T (listed n) },
    ghost counted: { length tills.items ≡ n },
    ghost seated: { Seated n tills.items },
    ghost played: { ∥ Played rule n tills.items ∥₁ },
}
