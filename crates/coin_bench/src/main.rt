// What the share coin shows with as many wrong shares as it bears, in the worst place; with `time`, how long a toss takes.
#![tactic(auto)]

mod report;
mod scene;
mod timing;

use report::run;

fn main(rt: HostRuntime) -> anyhow::Result<()> {
    run(&rt)
}
