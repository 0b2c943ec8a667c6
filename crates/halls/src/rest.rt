// The tills of a hall hear each other, until nothing is new.
ghost use Rattle.std.specs.Prelude.{◌≡◌, ◌<◌, IfSome};
ghost use Rattle.halls.specs.Halls.{scene_of, HallRests};
ghost use Rattle.halls.specs.Plays.{Continued, Progress, one_if};
ghost use Rattle.halls.specs.Scenes.{shown};
ghost use Rattle.halls.specs.Sweeps.{some_new, pass_answer, pass_left, all_heard, told_below, sweep, positions, rest_left, NothingNew};

use crate::calls::{Passed, pass_at};
use crate::hall::Hall;

impl Hall {
    // A till says its first message at or after a position, and another hears it.
    fn pass(&mut self, from: u8, to: u8, position: u32) -> Option<Passed>
        requires from_low { from < self.old.n }
        requires to_low { to < self.old.n }
        ensures answer { result ≡ pass_answer self.old.rule self.old.n from to position (shown self.old.tills.items) }
        ensures left { shown self.new.tills.items ≡ pass_left self.old.rule self.old.n from to position (shown self.old.tills.items) }
        ensures inside { IfSome result (λ a. a.position < positions) }
        ensures progress { Progress (one_if (some_new result)) self.old.rule self.old.n self.old.tills.items self.new.rule self.new.n self.new.tills.items }
    {
        pass_at(&mut self.tills, self.n, self.rule, from, to, position)
    }

    // Loops for their effect, this one and those below: each turn changes the tills.
    // Passes on all messages of a till to another, positions rising; whether one was new. A till says at most one message at
    // each of its positions, which lie below 0x310000.
    fn pass_all(&mut self, from: u8, to: u8) -> bool
        requires from_low { from < self.old.n }
        requires to_low { to < self.old.n }
        ensures heard { record { news = result; tills = shown self.new.tills.items } ≡ all_heard self.old.rule self.old.n from to (shown self.old.tills.items) }
        ensures progress { Progress (one_if result) self.old.rule self.old.n self.old.tills.items self.new.rule self.new.n self.new.tills.items }
    {
        let mut any_new = false;
        let mut position = 0u32;
        for _turn in 0..0x31_0000u32 {
            let Some(passed) = self.pass(from, to, position) else {
                break;
            };
            any_new |= passed.news;
            position = passed.position + 1;
        }
        any_new
    }

    // All others hear a till, numbers rising; whether a message was new.
    fn tell_all(&mut self, from: u8) -> bool
        requires { from < self.old.n }
        ensures heard { record { news = result; tills = shown self.new.tills.items } ≡ told_below self.old.rule self.old.n self.old.n from (shown self.old.tills.items) }
        ensures progress { Progress (one_if result) self.old.rule self.old.n self.old.tills.items self.new.rule self.new.n self.new.tills.items }
    {
        let mut any_new = false;
        for to in 0..self.n {
            if to != from {
                any_new |= self.pass_all(from, to);
            }
        }
        any_new
    }

    // All tills are heard by all others, numbers rising; whether a message was new.
    fn sweep(&mut self) -> bool
        ensures heard { record { news = result; tills = shown self.new.tills.items } ≡ sweep self.old.rule self.old.n (shown self.old.tills.items) }
        ensures progress { Progress (one_if result) self.old.rule self.old.n self.old.tills.items self.new.rule self.new.n self.new.tills.items }
    {
        let mut any_new = false;
        for from in 0..self.n {
            any_new |= self.tell_all(from);
        }
        any_new
    }

    // The tills that have offered hear each other, until a sweep brings nothing new: the hall is then at rest.
    pub fn rest(&mut self)
        ensures left { scene_of self.new ≡ rest_left (scene_of self.old) }
        ensures nothing_new { NothingNew (scene_of self.new) }
        ensures continued { Continued self.old.rule self.old.n self.old.tills.items self.new.rule self.new.n self.new.tills.items }
        ensures at_rest { HallRests self.new.rule self.new.n self.new.tills.items }
    {
        for _turn in 0..0x1000_0000u32 {
            if !self.sweep() {
                return;
            }
        }
    }
}
