// What the bench prints, a line for each hall size.
ghost use Rattle.std.specs.Prelude.{◌≡◌, ◌/◌, ◌≤◌, Some};
ghost use Rattle.coin_bench.specs.Scenes.{bit_text, tenfold};

use crate::scene::{Scene, take_from_to};
use crate::timing::Times;
use anyhow::anyhow;
use basis::hall::fault_limit;
use coins::coin::Coin;
use coins::tossed_round::TossedRound;
use std::{env, fmt};

// The listed hall sizes.
const HALLS: [u8; 5] = [4, 7, 10, 13, 16];

// Whether an argument asks for times.
fn asks_times(rt: &HostRuntime) -> anyhow::Result<bool> {
    Ok(env::args(rt)?.any(|arg| arg.as_str() == "time"))
}

// The scene of a hall of n.
fn new_scene(n: u8) -> anyhow::Result<Scene>
    requires { (2 ≤ n) × (n ≤ 16) }
{
    Scene::new(n).map_err(|_| anyhow!("the coin was refused"))
}

// What is shown, in words.
#[derive(Clone, Copy)]
struct Shown(Option<bool>);

impl fmt::Display for Shown {
    ghost output = { λ s. Some (bit_text s.0) };

    fn fmt<W: fmt::Write>(&self, f: &mut fmt::Formatter<W>) -> fmt::Result {
        f.write_str(match self.0 {
            None => "nothing",
            Some(false) => "0",
            Some(true) => "1",
        })
    }
}

// Says what is shown in a hall.
fn say_shown(rt: &HostRuntime, mut scene: Scene) -> anyhow::Result<()> {
    let n = scene.n;
    let first = TossedRound {
        ballot: 0,
        round: 1,
    };
    take_from_to(&mut scene.coin, n, 0, n - 1, first);
    let f = fault_limit(n);
    let shown = Shown(scene.coin.bit(first));
    println!(rt; "{n} replicas, {f} wrong: shows {shown}")?;
    Ok(())
}

// A number with one decimal, in tenths.
#[derive(Clone, Copy)]
struct Tenths(u64);

impl fmt::Display for Tenths {
    fn fmt<W: fmt::Write>(&self, f: &mut fmt::Formatter<W>) -> fmt::Result {
        let whole = self.0 / 10;
        let tenth = self.0 % 10;
        write!(f, "{whole}.{tenth}")
    }
}

// Nanoseconds as microseconds.
fn micros(nanos: u32) -> Tenths
    ensures { result.0 ≡ nanos / 100 }
{
    Tenths(u64::from(nanos / 100))
}

// How many times one number is another; 0 where the other is 0.
fn times_over(value: u32, other: u32) -> Tenths
    ensures { result.0 ≡ tenfold value other }
{
    if other == 0 {
        return Tenths(0);
    }
    Tenths(u64::from(value) * 10 / u64::from(other))
}

// Says how long a toss takes in a hall, and how many times that of the hall before.
fn say_times(rt: &HostRuntime, mut scene: Scene, before: Times) -> anyhow::Result<Times> {
    let times = scene.median_times(rt)?;
    let toss = micros(times.toss);
    let search = micros(times.search);
    let growth = times_over(times.search, before.search);
    println!(rt; "  microseconds: toss {toss}, its last search {search}, growth {growth}")?;
    Ok(times)
}

pub fn run(rt: &HostRuntime) -> anyhow::Result<()> {
    let times = asks_times(rt)?;
    let mut before = Times::default();
    for n in HALLS {
        say_shown(rt, new_scene(n)?)?;
        if times {
            before = say_times(rt, new_scene(n)?, before)?;
        }
    }
    Ok(())
}
