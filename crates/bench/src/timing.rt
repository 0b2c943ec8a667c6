// How long the calls take, in evenings of honest replicas: medians over several evenings.
use crate::dealing::Deal;
use crate::evening::{Evening, PLACES, ROOM};
use crate::resting::place_of;
use anyhow::anyhow;
use coins::dealt::DealtCoin;
use coins::share_coin::ShareCoin;
use halls::packet::message_in;
use sheets::kinds::Takings;
use std::alloc::AllocError;
use std::io;
use std::mem::replace;
use std::time::Instant;

// The listed hall sizes.
const HALLS: [u8; 5] = [4, 7, 10, 13, 16];

// How many evenings a median is of.
const RUNS: usize = 5;

// The tag of second votes, of which one with the other bit is refused.
const SECOND_VOTE: u8 = 0x21;

// Nanoseconds of several calls, and how many these were.
#[derive(Clone, Copy, Default)]
struct Lap {
    nanos: u64,
    calls: u64,
}

impl Lap {
    fn add(&mut self, nanos: u64, calls: usize) {
        self.nanos = self.nanos.saturating_add(nanos);
        self.calls = self.calls.saturating_add(calls as u64);
    }

    // The nanoseconds of one call.
    fn mean(self) -> u64 {
        self.nanos / self.calls.max(1)
    }
}

// What is timed of an evening.
#[derive(Clone, Copy, Default)]
struct Laps {
    new: Lap,
    known: Lap,
    refused: Lap,
    say: Lap,
    whole: Lap,
}

fn nanos_since(rt: &HostRuntime, start: &Instant) -> io::Result<u64> {
    let time = start.elapsed(rt)?;
    let seconds = time.as_secs().saturating_mul(1_000_000_000);
    Ok(seconds.saturating_add(u64::from(time.subsec_nanos())))
}

// A hall whose calls are timed, with the packets that one replica says next, and such of them as are refused.
#[derive(Drop)]
struct Timed<C: Deal, const THIRD: bool> {
    evening: Evening<Takings, C, THIRD>,
    packets: Vec<[u8; ROOM]>,
    refused: Vec<[u8; ROOM]>,
    laps: Laps,
}

impl<C: Deal, const THIRD: bool> Timed<C, THIRD> {
    // Times saying all that a replica has to say.
    fn time_say(&mut self, rt: &HostRuntime, from: u8) -> io::Result<()> {
        let mut out = [0u8; ROOM];
        let mut position = 0;
        let mut calls = 0usize;
        let start = Instant::now(rt)?;
        for _ in 0..PLACES {
            calls = calls.saturating_add(1);
            let Some(said) = self.evening.say(from, position, &mut out) else {
                break;
            };
            position = said.saturating_add(1);
        }
        self.laps.say.add(nanos_since(rt, &start)?, calls);
        Ok(())
    }

    // Gathers what a replica says that was not gathered before, and of the second votes those with the other bit.
    fn gather(&mut self, from: u8) -> Result<(), AllocError> {
        self.packets.clear();
        self.refused.clear();
        let mut out = [0u8; ROOM];
        let mut position = 0;
        for _ in 0..PLACES {
            let Some(said) = self.evening.say(from, position, &mut out) else {
                break;
            };
            position = said.saturating_add(1);
            let Some(told) = self.evening.told.get_mut(place_of(from, said)) else {
                break;
            };
            if replace(told, 1) > 0 {
                continue;
            }
            self.packets.push(out)?;
            if out[0] == SECOND_VOTE {
                out[5] ^= 1;
                self.refused.push(out)?;
            }
        }
        Ok(())
    }

    // All hear what each says: first it is new, then known, and of some the contrary is refused. Whether there was anything.
    fn sweep(&mut self, rt: &HostRuntime) -> anyhow::Result<bool> {
        let mut any = false;
        for from in 0..self.evening.n {
            self.time_say(rt, from)?;
            self.gather(from)?;
            let many = self.packets.len();
            any |= many > 0;
            for to in 0..self.evening.n {
                if to != from {
                    let packets = self.packets.as_slice();
                    let new = time_hear(rt, &mut self.evening, from, to, packets)?;
                    self.laps.new.add(new, many);
                    let known = time_hear(rt, &mut self.evening, from, to, packets)?;
                    self.laps.known.add(known, many);
                    let packets = self.refused.as_slice();
                    let refused = time_hear(rt, &mut self.evening, from, to, packets)?;
                    self.laps.refused.add(refused, packets.len());
                }
            }
        }
        Ok(any)
    }
}

// Times a replica hearing packets, one after the other.
fn time_hear<C: Deal, const THIRD: bool>(
    rt: &HostRuntime,
    evening: &mut Evening<Takings, C, THIRD>,
    from: u8,
    to: u8,
    packets: &[[u8; ROOM]],
) -> io::Result<u64> {
    let start = Instant::now(rt)?;
    for packet in packets {
        let _ = evening.hear(from, to, message_in(packet));
    }
    nanos_since(rt, &start)
}

// The times of one evening, call by call, and of the same evening as a whole.
fn time_evening<C: Deal, const THIRD: bool>(
    rt: &HostRuntime,
    n: u8,
    seed: u64,
) -> anyhow::Result<Laps> {
    let heap = rt.alloc();
    let mut timed = Timed::<C, THIRD> {
        evening: Evening::open(heap, n, 0, seed).or(Err(anyhow!("no evening")))?,
        packets: Vec::new(heap),
        refused: Vec::new(heap),
        laps: Laps::default(),
    };
    for number in 0..n {
        let _ = timed.evening.offer(number);
    }
    for _ in 0..PLACES {
        if !timed.sweep(rt)? {
            break;
        }
    }
    let mut laps = timed.laps;
    let opened = Evening::<Takings, C, THIRD>::open(heap, n, 0, seed);
    let mut evening = opened.or(Err(anyhow!("no evening")))?;
    let start = Instant::now(rt)?;
    let rested = evening.rest();
    let closed = evening.check_closings();
    laps.whole.nanos = nanos_since(rt, &start)?;
    if rested.is_err() || closed.is_err() {
        return Err(anyhow!("the evening does not end well"));
    }
    laps.whole.calls = evening.counts.calls;
    Ok(laps)
}

// The one in the middle.
fn median(mut numbers: [u64; RUNS]) -> u64 {
    numbers.sort_unstable();
    numbers[RUNS / 2]
}

// Prints the medians of a hall size under a rule and a coin.
fn time_hall<C: Deal, const THIRD: bool>(
    rt: &HostRuntime,
    n: u8,
    words: &str,
) -> anyhow::Result<()> {
    let mut new = [0; RUNS];
    let mut known = [0; RUNS];
    let mut refused = [0; RUNS];
    let mut say = [0; RUNS];
    let mut micros = [0; RUNS];
    let mut calls = [0; RUNS];
    for run in 0..RUNS {
        let laps = time_evening::<C, THIRD>(rt, n, run as u64)?;
        new[run] = laps.new.mean();
        known[run] = laps.known.mean();
        refused[run] = laps.refused.mean();
        say[run] = laps.say.mean();
        micros[run] = laps.whole.nanos / 1000;
        calls[run] = laps.whole.calls;
    }
    let new = median(new);
    let known = median(known);
    let refused = median(refused);
    let say = median(say);
    let micros = median(micros);
    let calls = median(calls);
    println!(rt;
        "{n} {words}: nanoseconds: new {new}, known {known}, refused {refused}, say {say}"
    )?;
    println!(rt; "  an evening: {micros} microseconds, {calls} calls")?;
    Ok(())
}

// Prints the times of all hall sizes, rules and coins.
pub fn time_all(rt: &HostRuntime) -> anyhow::Result<()> {
    for n in HALLS {
        time_hall::<DealtCoin, false>(rt, n, "two dealt")?;
        time_hall::<DealtCoin, true>(rt, n, "three dealt")?;
        time_hall::<ShareCoin, false>(rt, n, "two shares")?;
        time_hall::<ShareCoin, true>(rt, n, "three shares")?;
    }
    Ok(())
}
