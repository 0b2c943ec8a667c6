// The hall: how many replicas there are, and how many of them may be faulty.
ghost use Rattle.std.specs.Prelude.{◌≡◌};
ghost use Rattle.basis.specs.Halls.{listed, faults, quorum, beyond_faults, Thirds};

// The largest hall, and so the number of slots that a position counts for each tag.
pub const SLOTS: u8 = 16;

// Whether a hall may have n replicas: 4, 7, 10, 13 or 16. Each is 3f + 1.
pub fn is_listed(n: u8) -> bool
    ensures value { result ≡ listed n }
    ensures thirds { Thirds }
{
    n >= 4 && n <= SLOTS && n % 3 == 1
}

// f, the number of faulty replicas that a hall of n bears.
pub fn fault_limit(n: u8) -> u8
    ensures { result ≡ faults n }
{
    n.saturating_sub(1) / 3
}

// 2f + 1 replicas.
pub fn quorum_size(n: u8) -> u32
    ensures { result ≡ quorum n }
{
    2 * u32::from(fault_limit(n)) + 1
}

// f + 1 replicas, so that one of them is honest.
pub fn honest_size(n: u8) -> u32
    ensures { result ≡ beyond_faults n }
{
    u32::from(fault_limit(n)) + 1
}
