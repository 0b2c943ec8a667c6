// Plays the sheet broadcast of one hall from a script on standard input, and says in words what happens.
#![tactic(auto)]

mod play;
mod report;
mod script;
mod till;

use report::run;

fn main(rt: HostRuntime) -> anyhow::Result<()> {
    run(&rt)
}
