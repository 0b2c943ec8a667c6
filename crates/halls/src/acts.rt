// Opening a hall, offering at one of its tills, and closing one.
ghost use Rattle.std.specs.Prelude.{◌≡◌};
ghost use Rattle.halls.specs.Faults.{fault_told};
ghost use Rattle.halls.specs.Halls.{scene_of, scene_told, OrMemory};
ghost use Rattle.halls.specs.Plays.{Continued};
ghost use Rattle.halls.specs.Scenes.{opening_told, offer_told, offer_left, close_told, close_left, close_output};

use crate::calls::{close_at, offer_at, record_at};
use crate::hall::Hall;
use crate::opening::open_tills;
use crate::till::Fault;
use basis::hall::is_listed;
use basis::refusal::Reason;
use scripts::command::RuleName;
use sheets::kinds::Takings;
use std::alloc::Global;

impl Hall {
    // Opens all tills of a hall of n; refused where no hall has that size.
    pub fn open(heap: Global, n: u8, rule: RuleName, coin: u16) -> Result<Hall, Fault>
        ensures { OrMemory (scene_told (fault_told result)) (opening_told rule n coin) }
    {
        if !is_listed(n) {
            return Err(Fault::Refused(Reason::HallSizeNotListed.at(0)));
        }
        let tills = open_tills(heap, n, coin)?;
        Ok(Hall { n, rule, tills })
    }

    // A till of the hall offers takings. The evening goes on by this call and the others, refused ones too.
    pub fn offer(&mut self, number: u8, cents: i64, receipts: u32) -> Result<(), Fault>
        ensures answer { fault_told result ≡ offer_told (scene_of self.old) number cents }
        ensures left { scene_of self.new ≡ offer_left (scene_of self.old) number cents receipts }
        ensures continued { Continued self.old.rule self.old.n self.old.tills.items self.new.rule self.new.n self.new.tills.items }
    {
        let sheet = Takings::new(cents, receipts)?;
        if number >= self.n {
            return Err(Fault::Misplaced);
        }
        offer_at(&mut self.tills, self.n, self.rule, number, &sheet)
    }

    // Closes a till, and writes its closing record; answers the record's length.
    pub fn close(&mut self, number: u8, out: &mut [u8]) -> Result<usize, Fault>
        ensures answer { fault_told result ≡ close_told (scene_of self.old) number out.old }
        ensures left { scene_of self.new ≡ close_left (scene_of self.old) number }
        ensures output { out.new ≡ close_output (scene_of self.old) number out.old }
        ensures continued { Continued self.old.rule self.old.n self.old.tills.items self.new.rule self.new.n self.new.tills.items }
    {
        if number >= self.n {
            return Err(Fault::Misplaced);
        }
        close_at(&mut self.tills, self.n, self.rule, number)?;
        record_at(&self.tills, self.n, number, out)
    }
}
