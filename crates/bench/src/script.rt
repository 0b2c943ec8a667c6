// The lines of a script: each a series of evenings.
use crate::counts::Counts;
use crate::series::play;
use basis::hall::{fault_limit, is_listed};
use std::fmt;
use std::io::Read;
use text::number::decimal;
use text::words::{Lines, split_piece};

// Evenings of one hall: the first by this seed, each other by the next one.
#[derive(Clone, Copy)]
pub struct Series {
    pub n: u8,
    // the three-phase rule, else the two-phase one
    pub three: bool,
    // the share coin, else the dealt one
    pub shares: bool,
    // labels, else takings
    pub labels: bool,
    pub evenings: u64,
    pub seed: u64,
    pub faulty: u8,
}

// The line of a series.
impl fmt::Display for Series {
    fn fmt<W: fmt::Write>(&self, f: &mut fmt::Formatter<W>) -> fmt::Result {
        let n = self.n;
        let rule = if self.three { "three" } else { "two" };
        let coin = if self.shares { "shares" } else { "dealt" };
        let kind = if self.labels { "labels" } else { "takings" };
        let evenings = self.evenings;
        let seed = self.seed;
        let faulty = self.faulty;
        write!(f, "{n} {rule} {coin} {kind} {evenings} {seed} {faulty}")
    }
}

// The words of a line that are still to come.
#[derive(Drop)]
struct Words<'a>(Option<&'a [u8]>);

impl<'a> Words<'a> {
    fn next(&mut self) -> Option<&'a [u8]> {
        let (word, rest) = split_piece(self.0?, b' ');
        self.0 = rest;
        Some(word)
    }

    // Whether the next word is the second of two.
    fn is_second(&mut self, first: &[u8], second: &[u8]) -> Option<bool> {
        let word = self.next()?;
        let is_second = word == second;
        (is_second || word == first).then_some(is_second)
    }

    fn small(&mut self) -> Option<u8> {
        u8::try_from(decimal(self.next()?)?).ok()
    }
}

// The series of a line of seven words, in a listed hall with no more faulty replicas than it bears.
fn parse(line: &[u8]) -> Option<Series> {
    let mut words = Words(Some(line));
    let series = Series {
        n: words.small()?,
        three: words.is_second(b"two", b"three")?,
        shares: words.is_second(b"dealt", b"shares")?,
        labels: words.is_second(b"takings", b"labels")?,
        evenings: decimal(words.next()?)?,
        seed: decimal(words.next()?)?,
        faulty: words.small()?,
    };
    let fits = is_listed(series.n) && series.faulty <= fault_limit(series.n);
    (fits && words.next().is_none()).then_some(series)
}

// Plays the script on standard input.
pub fn run(rt: &HostRuntime) -> anyhow::Result<()> {
    let mut input = Vec::new(rt.alloc());
    let _ = rt.stdin().read_to_end(&mut input)?;
    let mut all = Counts::NONE;
    for line in Lines::of(input.as_slice()) {
        match parse(line) {
            Some(series) => {
                let counts = play(rt, series)?;
                all.add(&counts);
            }
            None => println!(rt; "a line is not understood")?,
        }
    }
    println!(rt; "all")?;
    all.print(rt)?;
    Ok(())
}
