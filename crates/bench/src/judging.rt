// The tests by which the checks tell a fault.
ghost use Rattle.std.specs.Prelude.{◌≡◌, ◌+◌, not, ◌&&◌, is_none, ◌==◌, nat_lt};
ghost use Rattle.std.specs.Str.{bytes_eq};
ghost use Rattle.basis.specs.Halls.{faults};
ghost use Rattle.bench.specs.Judging.{differ};

use basis::hall::fault_limit;

// Whether two replicas decide a ballot differently.
pub fn are_apart(one: Option<bool>, other: Option<bool>) -> bool
    ensures { result ≡ differ one other }
{
    match (one, other) {
        (Some(one), Some(other)) => one != other,
        _ => false,
    }
}

// Whether two closing records are the same.
pub fn are_same(one: &[u8], other: &[u8]) -> bool
    ensures { result ≡ bytes_eq one.now other.now }
{
    one == other
}

// Whether a closing record has too few sheets: less than f + 2.
pub fn are_too_few(n: u8, sheets: u8) -> bool
    ensures { result ≡ nat_lt sheets (faults n + 2) }
{
    sheets < fault_limit(n) + 2
}

// Whether an honest replica's sheet is missing.
pub fn is_missing(honest: u8, slot: u8, delivered: Option<u8>) -> bool
    ensures { result ≡ (nat_lt slot honest && is_none delivered) }
{
    slot < honest && delivered.is_none()
}

// Whether a message comes from an honest replica to another, so that its refusal is a fault.
pub fn is_honest_to_another(honest: u8, from: u8, to: u8) -> bool
    ensures { result ≡ (nat_lt from honest && not (from == to)) }
{
    from < honest && from != to
}
