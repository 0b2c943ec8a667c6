// The state of a till's replica.
ghost use Rattle.halls.specs.Actives.{active_member};

use basis::member::Member;
use replica::offered::Offered;
use replica::states::{Closed, Fresh, Running};

// A replica that has offered.
#[derive(Drop)]
pub enum Active {
    Running(Running),
    Closed(Closed),
}

impl Offered for Active {
    ghost numbered = { active_member };

    fn member(&self) -> Member {
        match self {
            Active::Running(running) => running.member(),
            Active::Closed(closed) => closed.member(),
        }
    }
}

// A replica that may offer, one that has, and what stands while a call is on its way that uses the state up: an Option of
// the first two would have the same third case, as None, in each match.
#[derive(Drop)]
pub enum State {
    Fresh(Fresh),
    Active(Active),
    Gone,
}
