// What a replica keeps of a slot besides its sheet places.

// The sender whose ready has the sheet that is delivered for the slot, if one is.
#[derive(Clone, Copy, PartialEq, Eq, Debug, Default)]
pub struct Slot {
    pub delivered: Option<u8>,
}
