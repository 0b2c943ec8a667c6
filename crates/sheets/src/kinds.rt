// The two kinds of sheets and their plain rows. The ghost fields make every value of a kind a lawful sheet.
ghost use Rattle.std.specs.Prelude.{◌≡◌, ◌^◌, ◌<◌, ◌≤◌, length, pos, negsuc, ◌≤ℤ◌, slice_index};

// Net takings in cents, at most 10^12 either way, and the number of receipts.
#[derive(Clone, Copy, PartialEq, Eq, Debug)]
pub struct Takings {
    pub cents: i64,
    pub receipts: u32,
    ghost lawful: { (negsuc 999999999999 ≤ℤ cents) × (cents ≤ℤ pos 1000000000000) },
    ghost fits: { receipts < 2 ^ 32 },
}

// What a table holds in the place of takings; a row whose amount is out of range counts as empty.
#[derive(Clone, Copy, PartialEq, Eq, Debug)]
pub struct TakingsRow {
    pub cents: i64,
    pub receipts: u32,
}

// A label file: its fingerprint, and its length in bytes. Every one is lawful.
#[derive(Clone, Copy, PartialEq, Eq, Debug)]
pub struct Label {
    pub fingerprint: [u64; 4],
    pub size: u32,
    ghost four: { (length fingerprint ≤ 4) × (4 ≤ length fingerprint) },
    ghost wide: { (slice_index fingerprint 0 < 2 ^ 64) × (slice_index fingerprint 1 < 2 ^ 64) × (slice_index fingerprint 2 < 2 ^ 64) × (slice_index fingerprint 3 < 2 ^ 64) },
    ghost fits: { size < 2 ^ 32 },
}

// What a table holds in the place of a label; a row that is not present counts as empty.
#[derive(Clone, Copy, PartialEq, Eq, Debug)]
pub struct LabelRow {
    // a flag beside the fields, since a place in a table is a plain row of numbers
    pub present: bool,
    pub fingerprint: [u64; 4],
    pub size: u32,
}

impl Takings {
    // The largest amount in cents, either way.
    pub const MOST: i64 = 1_000_000_000_000;
}
