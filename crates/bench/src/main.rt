// Plays evenings of a hall by a seed, with faulty replicas, and checks them; with `time`, how long the calls take.
#![tactic(auto)]

mod checks;
mod counts;
mod dealing;
mod draws;
mod evening;
mod forging;
mod judging;
mod resting;
mod script;
mod seat;
mod series;
mod timing;

use anyhow::anyhow;
use script::run;
use std::env;
use timing::time_all;

fn main(rt: HostRuntime) -> anyhow::Result<()> {
    if env::args(&rt)?.any(|arg| arg.as_str() == "time") {
        return time_all(&rt);
    }
    run(&rt)
}
