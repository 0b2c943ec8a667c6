// The polynomial through chosen shares modulo 251, by Newton's numbers: one for each chosen share.
ghost use Rattle.std.specs.Prelude.{◌≡◌, ℕ, ◌+◌, ◌-◌, ◌*◌, ◌%◌, ◌<◌, ◌≤◌, true, length};
ghost use Rattle.basis.specs.Counts.{has};
ghost use Rattle.polynomials.specs.Polynomials.{at, inv, slope_to, nval, Newtons, Cancels, Interpolates, AtMostOne};

use basis::replicas::{ReplicaSet, contains};

// The inverses of 1 to 15 modulo 251.
const INVERSES: [u8; 16] = [
    0, 1, 126, 84, 63, 201, 42, 36, 157, 28, 226, 137, 21, 58, 18, 67,
];

// The number that d times gives 1 modulo 251.
pub fn inverse(d: usize) -> u8
    requires { d < 16 }
    ensures value { result ≡ inv d }
    ensures cancels { Cancels }
{
    INVERSES[d]
}

// The slope from a low point to a high one, given the inverse of their distance.
fn slope_by(high: u8, low: u8, by: u8) -> u8
    ensures { result ≡ (high + (251 - low % 251)) * by % 251 }
{
    ((u32::from(high) + (251 - u32::from(low) % 251)) * u32::from(by) % 251) as u8
}

// The slopes from the chosen ones of some low values to a high one, which stands right above them, in place of them.
fn slopes(choice: ReplicaSet, lower: &mut [u8], high: u8)
    requires { length lower.old < 16 }
    ensures { (j : ℕ) → j < length lower.old → has choice j ≡ true → at lower.new j ≡ slope_to high (at lower.old j) (length lower.old - j) % 251 }
{
    let i = lower.len();
    for (j, y) in lower.iter_mut().enumerate() {
        if contains(choice, j as u8) {
            *y = slope_by(high, *y, inverse(i - j));
        }
    }
}

// Newton's numbers for the chosen ones of some values, in place of the values.
pub fn interpolate(choice: ReplicaSet, ys: &mut [u8])
    requires { length ys.old ≤ 16 }
    ensures value { Newtons (length ys.old) (has choice) (at ys.old) (at ys.new) }
    ensures interpolates { Interpolates }
    ensures one { AtMostOne }
{
    // By number: over split_last_mut the proof did not close, as no loop knows at its end what it split off.
    for i in (0..ys.len()).rev() {
        if contains(choice, i as u8) {
            let high = ys[i];
            slopes(choice, &mut ys[..i], high);
        }
    }
}

// The polynomial of a choice and Newton's numbers, of which those of the choice count.
#[derive(Clone, Copy)]
pub struct Interpolant<'a> {
    pub choice: ReplicaSet,
    pub numbers: &'a [u8],
    pub ghost small: { length numbers.now ≤ 16 },
}

impl Interpolant<'_> {
    // The value at z.
    pub fn value(&self, z: u8) -> u8
        ensures { result ≡ nval (length self.now.numbers.now) (has self.now.choice) (at self.now.numbers.now) z % 251 }
    {
        let mut v: u32 = 0;
        for (i, number) in self.numbers.iter().enumerate() {
            if contains(self.choice, i as u8) {
                v = (u32::from(*number) + (u32::from(z) + (250 - i as u32)) * v) % 251;
            }
        }
        v as u8
    }
}
