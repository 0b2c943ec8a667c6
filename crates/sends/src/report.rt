// What the program says of each line, and at the end.
ghost use Rattle.std.specs.Prelude.{◌≡◌, IfOk};
ghost use Rattle.sends.specs.Entries.{entry_of};
ghost use Rattle.sends.specs.Outcomes.{comes_to, counted};

use crate::entry::{Entry, parse};
use crate::trip::{HALL, round_trip};
use messages::write::TAKINGS_MESSAGE;
use std::io::Read;
use text::hex::push_hex;
use text::words::Lines;

// What a line came to.
#[derive(Clone, Copy)]
enum Outcome {
    Sent,
    Refused,
    Unread,
}

// How many lines came to what.
#[derive(Default, Drop)]
struct Tally {
    sent: u64,
    refused: u64,
    unread: u64,
}

impl Tally {
    fn add(&mut self, outcome: Outcome)
        ensures { self.new ≡ counted self.old outcome }
    {
        match outcome {
            Outcome::Sent => self.sent = self.sent.saturating_add(1),
            Outcome::Refused => self.refused = self.refused.saturating_add(1),
            Outcome::Unread => self.unread = self.unread.saturating_add(1),
        }
    }
}

fn say_sent(rt: &HostRuntime, entry: Entry, packet: &[u8]) -> anyhow::Result<()> {
    let mut hex = String::new(rt.alloc());
    push_hex(&mut hex, packet)?;
    println!(rt; "  {hex}")?;
    println!(rt; "  reads as the send of {entry}")?;
    Ok(())
}

// Says what a line comes to.
fn say_line(rt: &HostRuntime, line: &[u8]) -> anyhow::Result<Outcome>
    ensures { IfOk result (λ outcome. outcome ≡ comes_to (entry_of line.now)) }
{
    let Some(entry) = parse(line) else {
        println!(rt;
            "  not understood: till below 256, cents, receipts below 2^32, with single spaces between them"
        )?;
        return Ok(Outcome::Unread);
    };
    let mut packet = [0u8; TAKINGS_MESSAGE];
    match round_trip(entry, &mut packet) {
        Ok(Some(back)) => {
            say_sent(rt, back, &packet)?;
            Ok(Outcome::Sent)
        }
        Ok(None) => {
            println!(rt; "  reads as another message")?;
            Ok(Outcome::Unread)
        }
        Err(refusal) => {
            println!(rt; "  refused {refusal}")?;
            Ok(Outcome::Refused)
        }
    }
}

// Goes through the lines of the input.
pub fn run(rt: &HostRuntime) -> anyhow::Result<()> {
    let mut input = Vec::new(rt.alloc());
    let _ = rt.stdin().read_to_end(&mut input)?;
    let mut tally = Tally::default();
    let mut lines = 0;
    for (number, line) in (1u64..).zip(Lines::of(input.as_slice())) {
        println!(rt; "line {number}")?;
        tally.add(say_line(rt, line)?);
        lines = number;
    }
    let Tally {
        sent,
        refused,
        unread,
    } = tally;
    println!(rt;
        "hall of {HALL}, lines {lines}: sent and read back {sent}, refused {refused}, not understood {unread}"
    )?;
    Ok(())
}
