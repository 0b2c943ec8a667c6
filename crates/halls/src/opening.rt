// Opening all tills of a hall.
ghost use Rattle.std.specs.Prelude.{◌≡◌, T, IfOk, IfErr};
ghost use Rattle.basis.specs.Halls.{listed};
ghost use Rattle.halls.specs.declared.till.Fault.TheVariants.{Memory as IsMemory};
ghost use Rattle.halls.specs.Plays.{OpenedTo};

use crate::till::{Fault, Till};
use std::alloc::Global;

// Opens the tills of a hall of n, each with tables of its own and a coin of one number.
pub fn open_tills(heap: Global, n: u8, coin: u16) -> Result<Vec<Till>, Fault>
    requires { T (listed n) }
    ensures opened { IfOk result (λ ts. OpenedTo n coin n ts.items) }
    ensures fails { IfErr result (λ e. e ≡ IsMemory) }
{
    let mut tills = Vec::new(heap);
    for number in 0..n {
        tills.push(Till::open(heap, n, number, coin)?)?;
    }
    Ok(tills)
}
