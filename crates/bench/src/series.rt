// Playing a series of evenings, for each kind, rule and coin.
use crate::counts::{Counts, more};
use crate::dealing::{Deal, Draft};
use crate::evening::{Evening, Fault};
use crate::script::Series;
use coins::dealt::DealtCoin;
use coins::share_coin::ShareCoin;
use sheets::kinds::{Label, Takings};
use std::alloc::Global;
use std::io;

// After so many evenings a line of progress is written to standard error.
const PROGRESS: u64 = 50;

// One evening by its seed, from the opening to the last check; what is counted of it.
fn play_evening<S: Draft, C: Deal, const THIRD: bool>(
    heap: Global,
    series: Series,
    seed: u64,
) -> Result<Counts, Fault> {
    let mut evening = Evening::<S, C, THIRD>::open(heap, series.n, series.faulty, seed)?;
    evening.wander()?;
    evening.go_ahead()?;
    evening.rest()?;
    evening.check_ballots()?;
    evening.check_closings()?;
    let mut counts = evening.counts;
    more(&mut counts.evenings);
    Ok(counts)
}

// All evenings of a series. Of a fault the line is printed that plays its evening alone.
fn play_all<S: Draft, C: Deal, const THIRD: bool>(
    rt: &HostRuntime,
    series: Series,
) -> io::Result<Counts> {
    let mut counts = Counts::NONE;
    for evening in 0..series.evenings {
        let mut alone = series;
        alone.evenings = 1;
        alone.seed = series.seed.wrapping_add(evening);
        let seed = alone.seed;
        match play_evening::<S, C, THIRD>(rt.alloc(), series, seed) {
            Ok(more) => counts.add(&more),
            Err(fault) => println!(rt; "FAULT {fault}, seed {seed}: {alone}")?,
        }
        if evening % PROGRESS == PROGRESS - 1 {
            eprintln!(rt; "{evening} of {series}")?;
        }
    }
    Ok(counts)
}

// A series of sheets of a kind.
fn play_kind<S: Draft>(rt: &HostRuntime, series: Series) -> io::Result<Counts> {
    match (series.three, series.shares) {
        (false, false) => play_all::<S, DealtCoin, false>(rt, series),
        (false, true) => play_all::<S, ShareCoin, false>(rt, series),
        (true, false) => play_all::<S, DealtCoin, true>(rt, series),
        (true, true) => play_all::<S, ShareCoin, true>(rt, series),
    }
}

// Plays a series, and prints what is counted of it.
pub fn play(rt: &HostRuntime, series: Series) -> io::Result<Counts> {
    println!(rt; "{series}")?;
    let counts = if series.labels {
        play_kind::<Label>(rt, series)?
    } else {
        play_kind::<Takings>(rt, series)?
    };
    counts.print(rt)?;
    Ok(counts)
}
