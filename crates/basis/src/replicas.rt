// Sets of replicas as masks: bit j, lowest first, is replica j.
ghost use Rattle.std.specs.Prelude.{◌≡◌, ℕ, ◌^◌, ◌<◌, ◌||◌, bit_or, nat_le};
ghost use Rattle.basis.specs.Halls.{quorum, beyond_faults};
ghost use Rattle.basis.specs.Counts.{has, count, OnesCounted, QuorumsMeet, HonestAmong, HonestPart, RowsColumns};
ghost use Rattle.basis.specs.Bytes.{be};

use crate::hall::{SLOTS, honest_size, quorum_size};

// A set of replicas, wide enough for the largest hall.
pub type ReplicaSet = u16;

// How many replicas are in the set.
pub fn size(members: ReplicaSet) -> u32
    ensures value { result ≡ count 16 (has members) }
    ensures counted { OnesCounted }
    ensures tables { RowsColumns }
{
    members.count_ones()
}

// Whether replica j is in the set; none from 16 on is.
pub fn contains(members: ReplicaSet, j: u8) -> bool
    ensures { result ≡ has members j }
{
    j < SLOTS && (members >> j) & 1 == 1
}

// The set with replica j in it.
pub fn with(members: ReplicaSet, j: u8) -> ReplicaSet
    requires { j < 16 }
    ensures { result ≡ bit_or members (2 ^ j) }
{
    members | (1 << j)
}

// How many replicas of a hall of n are in the set. A function beside `size`, which cuts nothing off and counts at once.
pub fn size_in(members: ReplicaSet, n: u8) -> u32
    ensures { result ≡ count n (has members) }
{
    if n >= SLOTS {
        size(members)
    } else {
        (members & ((1 << n) - 1)).count_ones()
    }
}

// Whether so many replicas are 2f + 1 or more of a hall of n. Two such sets share f + 1.
pub fn is_quorum(many: u32, n: u8) -> bool
    ensures value { result ≡ nat_le (quorum n) many }
    ensures meet { QuorumsMeet }
    ensures honest { HonestPart }
{
    many >= quorum_size(n)
}

// Whether so many replicas are f + 1 or more of a hall of n, so that one of them is honest.
pub fn has_honest(many: u32, n: u8) -> bool
    ensures value { result ≡ nat_le (beyond_faults n) many }
    ensures honest { HonestAmong }
{
    many >= honest_size(n)
}

// The bytes of a set, the most significant first.
pub fn set_bytes(members: ReplicaSet) -> [u8; 2]
    ensures { result ≡ be 2 members }
{
    members.to_be_bytes()
}
