// A replica of a hall of four that has offered, with the tables that it is lent.
use basis::heard::Heard;
use broadcast::states::{Fresh, Running};
use messages::tags::VoteTags;
use sheets::kinds::{Takings, TakingsRow};
use sheets::sheet::Sheet;
use slots::slot::Slot;
use std::test::Fail;

// How many round records a hall of four has.
pub const ROUNDS: usize = 60;

// Tables for a hall of four, with nothing in them.
#[derive(Clone, Copy)]
pub struct Tables {
    pub records: [Slot; 4],
    pub places: [TakingsRow; 36],
}

// A refusal by its number and place: tests pin the numbers that users know, which a `Refusal` would not show.
pub type Told<T> = Result<T, (u8, usize)>;

// Replica 0 of four, which has offered, and its tables.
#[derive(Drop)]
pub struct Replica {
    running: Running,
    tables: Tables,
}

impl Tables {
    pub fn empty() -> Tables {
        Tables {
            records: [Slot { delivered: None }; 4],
            places: [Takings::empty_row(); 36],
        }
    }
}

impl Replica {
    // Opens replica 0, which offers these takings.
    pub fn started(cents: i64, receipts: u32) -> Result<Replica, Fail> {
        let mut tables = Tables::empty();
        let fresh = Fresh::open::<Takings>(4, 0, &mut tables.records, ROUNDS, &mut tables.places)?;
        let sheet = Takings::new(cents, receipts)?;
        let offered = fresh.offer(&mut tables.records, ROUNDS, &mut tables.places, &sheet);
        let running = offered.map_err(|back| back.1)?;
        Ok(Replica { running, tables })
    }

    // Hears a packet, with tables of so many round records.
    pub fn hear_with(&mut self, rounds: usize, sender: u8, packet: &[u8]) -> Told<Heard> {
        let heard = self.running.hear::<Takings>(
            &mut self.tables.records,
            rounds,
            &mut self.tables.places,
            VoteTags::basic(),
            false,
            sender,
            packet,
        );
        heard.map_err(|e| (e.reason.number(), e.place))
    }

    pub fn hear(&mut self, sender: u8, packet: &[u8]) -> Told<Heard> {
        self.hear_with(ROUNDS, sender, packet)
    }

    pub fn say(&self, from: u32, out: &mut [u8]) -> Told<Option<u32>> {
        let said = self.running.say::<Takings>(
            &self.tables.records,
            ROUNDS,
            &self.tables.places,
            from,
            out,
        );
        said.map_err(|e| (e.reason.number(), e.place))
    }

    // The takings that are delivered for a slot, by their numbers.
    pub fn delivered(&self, slot: u8) -> Option<(i64, u32)> {
        let sheet: Option<Takings> = self
            .running
            .delivered(&self.tables.records, &self.tables.places, slot);
        sheet.map(|takings| (takings.cents, takings.receipts))
    }
}
