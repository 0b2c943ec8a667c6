// Plays the script on standard input: one hall, for takings and the dealt coin.
#![tactic(auto)]

use anyhow::anyhow;
use halls::script::play_all;
use std::io::Read;

fn main(rt: HostRuntime) -> anyhow::Result<()> {
    let mut input = Vec::new(rt.alloc());
    let _ = rt.stdin().read_to_end(&mut input)?;
    let printed = play_all(rt.alloc(), input.as_slice()).or(Err(anyhow!("out of memory")))?;
    print!(rt; "{printed}")?;
    Ok(())
}
