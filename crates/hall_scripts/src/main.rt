// Plays the scripts on standard input, parted by lines of four `=`, each by itself as the hall program plays one.
#![tactic(auto)]

use anyhow::anyhow;
use halls::script::play_all;
use std::io::Read;
use text::words::Lines;

// The line between two scripts, which is none of a script.
const PART: &[u8] = b"====";

// Plays a script, and prints all that it prints.
fn play(rt: &HostRuntime, script: &[u8]) -> anyhow::Result<()> {
    let printed = play_all(rt.alloc(), script).or(Err(anyhow!("out of memory")))?;
    print!(rt; "{printed}")?;
    Ok(())
}

fn main(rt: HostRuntime) -> anyhow::Result<()> {
    let mut input = Vec::new(rt.alloc());
    let _ = rt.stdin().read_to_end(&mut input)?;
    let mut script = Vec::new(rt.alloc());
    for line in Lines::of(input.as_slice()) {
        if line == PART {
            play(&rt, script.as_slice())?;
            println!(rt; "====")?;
            script.clear();
            continue;
        }
        script.extend_from_slice(line)?;
        script.push(b'\n')?;
    }
    play(&rt, script.as_slice())
}
