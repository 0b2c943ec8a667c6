// A seeded generator of numbers.
ghost use Rattle.std.specs.Prelude.{◌<◌};

// Splitmix: a counter from a seed on, of which each number is mixed.
#[derive(Clone, Copy)]
pub struct Draws(pub u64);

// A number in which each bit hangs on all bits of another.
pub fn mixed(number: u64) -> u64 {
    let once = (number ^ (number >> 30)).wrapping_mul(0xbf58_476d_1ce4_e5b9);
    let twice = (once ^ (once >> 27)).wrapping_mul(0x94d0_49bb_1331_11eb);
    twice ^ (twice >> 31)
}

impl Draws {
    pub fn number(&mut self) -> u64 {
        self.0 = self.0.wrapping_add(0x9e37_79b9_7f4a_7c15);
        mixed(self.0)
    }

    // A number below a bound.
    pub fn below(&mut self, bound: u8) -> u8
        requires { 0 < bound }
        ensures { result < bound }
    {
        (self.number() % u64::from(bound)) as u8
    }
}
