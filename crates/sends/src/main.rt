// Reads lines of till, cents and receipts, sends each as a message, reads it back, and says in words what came of it.
#![tactic(auto)]

mod entry;
mod report;
mod trip;

use report::run;

fn main(rt: HostRuntime) -> anyhow::Result<()> {
    run(&rt)
}
