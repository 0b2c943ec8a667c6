// A replica's states are types, each used up by the call that leads to the next.
use basis::member::Member;

// A replica that has not offered: it can only offer.
#[derive(Drop)]
pub struct Fresh {
    pub(crate) member: Member,
}

// A replica that has offered: it hears, looks, says and closes.
#[derive(Drop)]
pub struct Running {
    pub(crate) member: Member,
}

// A replica that has closed: it hears, looks and says, and it alone lists and gives the record.
#[derive(Drop)]
pub struct Closed {
    pub(crate) member: Member,
}
