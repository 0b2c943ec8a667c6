// Plays the lines of a script, one after the other.
ghost use Rattle.std.specs.Prelude.{◌≡◌, None};
ghost use Rattle.scripts.specs.declared.command.Command.TheVariants.{Close as IsClose};
ghost use Rattle.halls.specs.declared.player.Stop.TheVariants.{Memory as IsMemory};
ghost use Rattle.halls.specs.Faults.{problem_of};
ghost use Rattle.halls.specs.Halls.{scene_of};
ghost use Rattle.halls.specs.Plays.{Continued};
ghost use Rattle.halls.specs.Scenes.{close_left};
ghost use Rattle.halls.specs.Scripts.{Plays, Leaves, stop_of, scene_in, prints_after, hall_after, line_prints, line_leaves, Follows, ScriptsAlike};

use crate::hall::{Hall, RECORD_LONGEST};
use crate::report::{closing_lines, refused_line};
use crate::till::Fault;
use scripts::command::{Command, parse};
use std::alloc::{AllocError, Global};

// Why a script's play ends at a line.
#[derive(Clone, Copy, PartialEq, Eq, Debug)]
pub enum Stop {
    // the line is a fault of the script
    Fault,
    // memory ran out
    Memory,
}

impl From<AllocError> for Stop {
    ghost from_gives = { λ e stop. stop ≡ IsMemory };

    fn from(_e: AllocError) -> Stop {
        Stop::Memory
    }
}

impl From<Fault> for Stop {
    ghost from_gives = { λ fault stop. stop ≡ stop_of (problem_of fault) };

    fn from(fault: Fault) -> Stop {
        match fault {
            Fault::Misplaced | Fault::Refused(_) => Stop::Fault,
            Fault::Memory => Stop::Memory,
        }
    }
}

// Closes a till, and answers what is printed.
fn close(heap: Global, hall: &mut Hall, till: u8) -> Result<String, Stop>
    ensures answer { Plays result (prints_after (scene_of hall.old) (IsClose till)) }
    ensures left { scene_of hall.new ≡ close_left (scene_of hall.old) till }
    ensures continued { Continued hall.old.rule hall.old.n hall.old.tills.items hall.new.rule hall.new.n hall.new.tills.items }
{
    let mut record = [0u8; RECORD_LONGEST];
    match hall.close(till, &mut record) {
        Ok(len) => Ok(closing_lines(heap, till, &record[..len])?),
        Err(Fault::Refused(refusal)) => Ok(refused_line(heap, till, refusal)?),
        Err(fault) => Err(fault.into()),
    }
}

// Plays a command in a hall, and answers what is printed.
fn command(heap: Global, hall: &mut Hall, asked: Command) -> Result<String, Stop>
    ensures answer { Plays result (prints_after (scene_of hall.old) asked) }
    ensures left { scene_of hall.new ≡ hall_after (scene_of hall.old) asked }
    ensures continued { Continued hall.old.rule hall.old.n hall.old.tills.items hall.new.rule hall.new.n hall.new.tills.items }
{
    match asked {
        Command::Hall { .. } => return Err(Stop::Fault),
        Command::Offer {
            till,
            cents,
            receipts,
        } => hall.offer(till, cents, receipts)?,
        Command::Rest => hall.rest(),
        Command::Close { till } => return close(heap, hall, till),
    }
    Ok(String::new(heap))
}

// A script at play: before its first line there is no hall.
#[derive(Drop)]
pub struct Player {
    heap: Global,
    hall: Option<Hall>,
}

impl Player {
    pub fn new(heap: Global) -> Player
        ensures { result.hall ≡ None }
    {
        Player { heap, hall: None }
    }

    // Plays a line, and answers what is printed. Whatever the lines, all closes of a script print the same list.
    pub fn play(&mut self, line: &[u8]) -> Result<String, Stop>
        ensures answer { Plays result (line_prints (scene_in self.old.hall) line.now) }
        ensures left { Leaves result (scene_in self.old.hall) (line_leaves (scene_in self.old.hall) line.now) (scene_in self.new.hall) }
        ensures follows { Follows self.old.hall self.new.hall }
        ensures alike { ScriptsAlike }
    {
        let asked = parse(line).ok_or(Stop::Fault)?;
        match (asked, &mut self.hall) {
            (asked, Some(hall)) => command(self.heap, hall, asked),
            (Command::Hall { n, rule, coin }, None) => {
                self.hall = Some(Hall::open(self.heap, n, rule, coin)?);
                Ok(String::new(self.heap))
            }
            _ => Err(Stop::Fault),
        }
    }
}
