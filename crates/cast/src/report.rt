// What the program says of each line, and at the end.
ghost use Rattle.std.specs.Prelude.{◌≡◌, ◌||◌, true, is_some};
ghost use Rattle.cast.specs.Commands.{command_of};
ghost use Rattle.cast.specs.Plays.{may_open};

use crate::play::{Hall, Rested};
use crate::script::{Command, Forgery, Offer, parse};
use crate::till::{Fault, Till};
use anyhow::anyhow;
use basis::heard::Heard;
use sheets::kinds::Takings;
use std::alloc::Global;
use std::fmt::Write;
use std::io::Read;
use std::ops::ControlFlow;
use text::words::Lines;

// A line of the script, to be answered through the runtime.
#[derive(Clone, Copy)]
struct Line<'a> {
    rt: &'a HostRuntime,
    number: u64,
}

impl Line<'_> {
    fn say_not_understood(self) -> anyhow::Result<()> {
        let number = self.number;
        println!(self.rt; "line {number} not understood")?;
        Ok(())
    }

    fn open_hall(self, hall: &mut Option<Hall>, n: u8) -> anyhow::Result<ControlFlow<()>>
        ensures { is_some hall.old ≡ true → is_some hall.new ≡ true }
    {
        match Hall::open(self.rt.alloc(), n) {
            Ok(opened) => {
                *hall = Some(opened);
                Ok(ControlFlow::Continue(()))
            }
            Err(Fault::Refused(refusal)) => {
                println!(self.rt; "hall refused {refusal}")?;
                Ok(ControlFlow::Break(()))
            }
            Err(_) => Err(anyhow!("out of memory")),
        }
    }

    fn play_offer(self, hall: &mut Hall, offer: Offer) -> anyhow::Result<()> {
        let Offer { till, amount } = offer;
        match hall.offer(offer) {
            Ok(()) => println!(self.rt; "till {till} offers {amount}")?,
            Err(Fault::Refused(refusal)) => println!(self.rt; "till {till} refused {refusal}")?,
            Err(Fault::Misplaced) => self.say_not_understood()?,
            Err(Fault::Memory) => return Err(anyhow!("out of memory")),
        }
        Ok(())
    }

    // Says what a till made of a faulty one's message.
    fn say_heard(self, forgery: Forgery, heard: Result<Heard, Fault>) -> anyhow::Result<()> {
        let Forgery { from, to, slot, .. } = forgery;
        let phase = forgery.phase;
        let rt = self.rt;
        match heard {
            Ok(Heard::New) => println!(rt; "till {to} hears {phase} {slot} from till {from}: new")?,
            Ok(Heard::Known) => {
                println!(rt; "till {to} hears {phase} {slot} from till {from}: known")?;
            }
            Err(Fault::Refused(refusal)) => {
                println!(rt; "till {to} refuses till {from}: {refusal}")?;
            }
            Err(_) => self.say_not_understood()?,
        }
        Ok(())
    }

    // A faulty till says a message, if its takings can be made and it may say it.
    fn play_forgery(self, hall: &mut Hall, forgery: Forgery) -> anyhow::Result<()> {
        if !hall.may_forge(forgery) {
            return self.say_not_understood();
        }
        match Takings::try_from(forgery.amount) {
            Ok(sheet) => self.say_heard(forgery, hall.forge(forgery, sheet)),
            Err(refusal) => {
                let from = forgery.from;
                println!(self.rt; "till {from} refused {refusal}")?;
                Ok(())
            }
        }
    }

    fn play_rest(self, hall: &mut Hall) -> anyhow::Result<()> {
        let Rested { sweeps, messages } = hall.rest();
        println!(self.rt; "rest after {sweeps} sweeps, {messages} messages new")?;
        Ok(())
    }

    // Plays a line that is of one of the forms, if there is a hall.
    fn play_command(self, hall: &mut Option<Hall>, command: Command) -> anyhow::Result<()>
        ensures { is_some hall.new ≡ is_some hall.old }
    {
        let Some(hall) = hall else {
            return self.say_not_understood();
        };
        match command {
            Command::Hall(_) => self.say_not_understood(),
            Command::Offer(offer) => self.play_offer(hall, offer),
            Command::Forge(forgery) => self.play_forgery(hall, forgery),
            Command::Rest => self.play_rest(hall),
            Command::Show => show(self.rt, hall),
        }
    }

    // Plays the line, and says whether the play goes on; only a refused hall ends it. A hall opens at the first line alone.
    fn play(self, hall: &mut Option<Hall>, text: &[u8]) -> anyhow::Result<ControlFlow<()>>
        ensures stays { is_some hall.old ≡ true → is_some hall.new ≡ true }
        ensures opens { is_some hall.new ≡ true → (is_some hall.old || may_open self.entry.number (command_of text.now)) ≡ true }
    {
        match parse(text) {
            Some(Command::Hall(n)) if self.number == 1 => return self.open_hall(hall, n),
            Some(command) => self.play_command(hall, command)?,
            None => self.say_not_understood()?,
        }
        Ok(ControlFlow::Continue(()))
    }
}

// The sheets that a till has delivered, slots rising.
fn deliveries(heap: Global, till: &Till, n: u8) -> anyhow::Result<String> {
    let mut list = String::new(heap);
    for slot in 0..n {
        if let Some(sheet) = till.delivered(slot) {
            let comma = if list.is_empty() { "" } else { ", " };
            let Takings { cents, receipts } = sheet;
            write!(list, "{comma}{slot}: {cents} {receipts}")?;
        }
    }
    Ok(list)
}

fn show_till(rt: &HostRuntime, till: &Till, n: u8) -> anyhow::Result<()> {
    let number = till.number();
    let list = deliveries(rt.alloc(), till, n)?;
    if list.is_empty() {
        println!(rt; "till {number} delivered nothing")?;
    } else {
        println!(rt; "till {number} delivered: {list}")?;
    }
    Ok(())
}

fn show(rt: &HostRuntime, hall: &Hall) -> anyhow::Result<()> {
    for till in hall.tills() {
        if till.has_offered() {
            show_till(rt, till, hall.size())?;
        }
    }
    Ok(())
}

// Goes through the lines of the input.
pub fn run(rt: &HostRuntime) -> anyhow::Result<()> {
    let mut input = Vec::new(rt.alloc());
    let _ = rt.stdin().read_to_end(&mut input)?;
    let mut hall = None;
    let mut lines = 0;
    for (number, text) in (1u64..).zip(Lines::of(input.as_slice())) {
        lines = number;
        let line = Line { rt, number };
        if line.play(&mut hall, text)?.is_break() {
            break;
        }
    }
    println!(rt; "{lines} lines")?;
    Ok(())
}
