// How long a toss takes: the median over all ballots and rounds of one coin.
ghost use Rattle.std.specs.Prelude.{◌≡◌, ◌<◌, ◌≤◌};

use crate::scene::{Scene, take_from_to};
use coins::share_coin::TOSSES;
use coins::tossed_round::TossedRound;
use std::io;
use std::time::Instant;

// Nanoseconds: of taking all shares of a toss, and of the last one, with which the search finds a bit.
#[derive(Clone, Copy, PartialEq, Eq, Debug, Default)]
pub struct Times {
    pub toss: u32,
    pub search: u32,
}

// The round of a toss, counted ballot by ballot.
fn round_of_toss(toss: u8) -> TossedRound
    requires { toss < 240 }
{
    TossedRound {
        ballot: toss / 15,
        round: toss % 15 + 1,
    }
}

impl Scene {
    // The nanoseconds of taking the shares of some replicas for a round.
    fn taking_time(
        &mut self,
        rt: &HostRuntime,
        from: u8,
        to: u8,
        at: TossedRound,
    ) -> io::Result<u32>
        requires { (from ≤ to) × (to ≤ 16) }
        ensures { self.new.n ≡ self.old.n }
    {
        let start = Instant::now(rt)?;
        take_from_to(&mut self.coin, self.n, from, to, at);
        Ok(start.elapsed(rt)?.subsec_nanos())
    }

    // The times of one toss.
    fn toss_times(&mut self, rt: &HostRuntime, at: TossedRound) -> io::Result<Times>
        ensures { self.new.n ≡ self.old.n }
    {
        let last = self.n - 2;
        let first = self.taking_time(rt, 0, last, at)?;
        let search = self.taking_time(rt, last, last + 1, at)?;
        Ok(Times {
            toss: first.saturating_add(search),
            search,
        })
    }

    // The medians of the times of all tosses.
    pub fn median_times(&mut self, rt: &HostRuntime) -> io::Result<Times>
        ensures { self.new.n ≡ self.old.n }
    {
        let mut tosses = [Times::default(); TOSSES];
        for (toss, times) in tosses.iter_mut().enumerate() {
            *times = self.toss_times(rt, round_of_toss(toss as u8))?;
        }
        Ok(Times {
            toss: median(tosses.map(|times| times.toss)),
            search: median(tosses.map(|times| times.search)),
        })
    }
}

// The one in the middle.
fn median(mut times: [u32; TOSSES]) -> u32 {
    times.sort_unstable();
    times[TOSSES / 2]
}
