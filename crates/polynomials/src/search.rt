// The bit that held shares show: a search for a polynomial of degree at most f that meets 2f + 1 of them.
ghost use Rattle.std.specs.Prelude.{◌≡◌, ℕ, ◌+◌, ◌-◌, ◌/◌, ◌*◌, ◌%◌, ◌^◌, ◌<◌, ◌≤◌, Bool, length, ◌==◌, nat_le, nat_lt};
ghost use Rattle.basis.specs.Counts.{has, count};
ghost use Rattle.basis.specs.Halls.{faults, quorum};
ghost use Rattle.polynomials.specs.Polynomials.{at, nval};
ghost use Rattle.polynomials.specs.Shares.{Hall, nth_choice, of_size, is_choice, meets_by, shown_in, shown_in_halves, shown_of, Exact, OneValue, OneBit};

use crate::newton::{Interpolant, interpolate};
use basis::hall::{honest_size, quorum_size};
use basis::replicas::{ReplicaSet, contains, size, size_in};

// Some replicas of a hall: those from one number to below another.
#[derive(Clone, Copy)]
struct Part {
    from: u8,
    to: u8,
    ghost ordered: { from ≤ to },
    ghost small: { to ≤ 16 },
}

impl Part {
    // How many sets of its replicas there are.
    fn choices(self) -> u32
        ensures { result ≡ 2 ^ (self.to - self.from) }
    {
        1 << (self.to - self.from)
    }

    // How many of its replicas are in a set.
    fn size_of(self, members: ReplicaSet) -> u32
        ensures { result ≡ count (self.to - self.from) (has (members / 2 ^ self.from)) }
    {
        size_in(
            (u32::from(members) >> self.from) as ReplicaSet,
            self.to - self.from,
        )
    }

    // The k-th of these sets.
    fn nth(self, k: u32) -> ReplicaSet
        requires { k < 2 ^ (self.to - self.from) }
        ensures { result ≡ nth_choice self.from k }
    {
        (k << self.from) as ReplicaSet
    }
}

// Whether a set has f + 1 replicas.
fn has_size(n: u8, choice: ReplicaSet) -> bool
    ensures { result ≡ of_size n choice }
{
    size(choice) == honest_size(n)
}

// Whether a set has f + 1 replicas that all hold shares.
fn is_usable(n: u8, choice: ReplicaSet, held: ReplicaSet) -> bool
    ensures { result ≡ is_choice n held choice }
{
    has_size(n, choice) && has_size(n, choice & held)
}

impl Interpolant<'_> {
    // Whether replica j holds a share and the polynomial meets it, as it meets the chosen ones.
    fn meets_share(&self, held: ReplicaSet, share: u8, j: u8) -> bool
        requires { j < 16 }
        ensures { result ≡ meets_by (length self.now.numbers.now) (has self.now.choice) (at self.now.numbers.now) (has held) share j }
    {
        contains(self.choice, j) || contains(held, j) && self.value(j + 1) == share % 251
    }

    // The low bit of the value at 0.
    fn bit_at_zero(&self) -> bool
        ensures { result ≡ (nval (length self.now.numbers.now) (has self.now.choice) (at self.now.numbers.now) 0 % 251 % 2 == 1) }
    {
        self.value(0) % 2 == 1
    }
}

// Whether so many met shares are too few even with all that are held from replica j on.
fn is_hopeless(n: u8, held: ReplicaSet, met: u32, j: u8) -> bool
    requires { (j ≤ 16) × (met ≤ 16) }
    ensures { result ≡ nat_lt (met + count 16 (has (held / 2 ^ j))) (quorum n) }
{
    met + size((u32::from(held) >> j) as ReplicaSet) < quorum_size(n)
}

// Whether so many shares that are met are enough, being 2f + 1.
fn is_enough(n: u8, met: u32) -> bool
    ensures { result ≡ (met == quorum n) }
{
    met == quorum_size(n)
}

// What the first polynomial that goes through f + 1 held shares of a part of the hall, and meets 2f + 1 of all, shows.
fn search_part(n: u8, held: ReplicaSet, shares: &[u8; 16], part: Part) -> Option<bool>
    requires { (Hall n) × (part.to ≤ n) }
    ensures { result ≡ shown_in n held (at shares.now) part.from part.to }
{
    let mut shown = None;
    // the specification fixes this form: a nested search over choices of held shares, left by a label
    'choices: for k in 0..part.choices() {
        let choice = part.nth(k);
        if !is_usable(n, choice, held) {
            continue;
        }
        let mut values = *shares;
        let numbers = &mut values[..usize::from(part.to)];
        interpolate(choice, numbers);
        let polynomial = Interpolant { choice, numbers };
        let mut met: u32 = 0;
        for (j, share) in shares[..usize::from(n)].iter().enumerate() {
            if polynomial.meets_share(held, *share, j as u8) {
                met += 1;
                if is_enough(n, met) {
                    shown = Some(polynomial.bit_at_zero());
                    break 'choices;
                }
            } else if is_hopeless(n, held, met, j as u8 + 1) {
                continue 'choices;
            }
        }
    }
    shown
}

// The same, known at once where the part has not f + 1 held shares.
fn look_in(n: u8, held: ReplicaSet, shares: &[u8; 16], part: Part) -> Option<bool>
    requires { (Hall n) × (part.to ≤ n) }
    ensures { result ≡ shown_in n held (at shares.now) part.from part.to }
{
    if part.size_of(held) < honest_size(n) {
        None
    } else {
        search_part(n, held, shares, part)
    }
}

// What the lower half of the hall shows, or else the upper one. Of 2f + 1 met shares f + 1 are in one half.
fn search_halves(n: u8, held: ReplicaSet, shares: &[u8; 16]) -> Option<bool>
    requires { Hall n }
    ensures { result ≡ shown_in_halves n held (at shares.now) }
{
    let middle = n / 2;
    let low = Part {
        from: 0,
        to: middle,
    };
    let high = Part {
        from: middle,
        to: n,
    };
    look_in(n, held, shares, low).or_else(|| look_in(n, held, shares, high))
}

// The low bit of the value at 0 of a polynomial modulo 251, of degree at most f, that meets 2f + 1 held shares of the
// replicas below n; none where there is no such polynomial, which is known at once of fewer held shares.
pub fn shown_bit(n: u8, held: ReplicaSet, shares: &[u8; 16]) -> Option<bool>
    requires { Hall n }
    ensures value { result ≡ shown_of n held (at shares.now) }
    ensures exact { Exact n (has held) (at shares.now) result }
    ensures one_value { OneValue }
    ensures one_bit { OneBit }
{
    if size_in(held, n) < quorum_size(n) {
        None
    } else {
        search_halves(n, held, shares)
    }
}
