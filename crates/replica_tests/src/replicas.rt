// A replica with its coin and the tables that it is lent, and what all tests ask of it.
use ballots::ballot::Ballot;
use basis::heard::Heard;
use basis::refusal::Refusal;
use closing::list::ListEntry;
use coins::coin::Coin;
use coins::dealt::DealtCoin;
use outcomes::opening_record::OpeningRecord;
use phases::phased::Phased;
use phases::round::PhasedRound;
use replica::offered::Offered;
use replica::states::{Closed, Fresh, Running};
use sheets::kinds::Takings;
use sheets::sheet::Sheet;
use slots::slot::Slot;
use std::process::Abort;
use std::test::Fail;

// A refusal by its number and place: tests pin the numbers that users know, which a `Refusal` would not show.
pub type Told<T> = Result<T, (u8, usize)>;

pub fn told<T>(answer: Result<T, Refusal>) -> Told<T> {
    answer.map_err(|e| (e.reason.number(), e.place))
}

// Whether these bytes are written to an output that held 0xee throughout, and no others.
pub fn is_written(out: &[u8], bytes: &[u8]) -> bool {
    out.starts_with(bytes) && out.iter().skip(bytes.len()).all(|byte| *byte == 0xee)
}

// The closing record where replicas 0 to 2 of four are in, with takings of 1250, -200 and 0 cents.
pub const RECORD_OF_THREE: &[u8] = b"\x40\x00\x04\x01\x04\x00\x07\
    \x41\x00\x0d\x00\x00\x00\x00\x00\x00\x00\x04\xe2\x00\x00\x00\x03\
    \x41\x00\x0d\x01\xff\xff\xff\xff\xff\xff\xff\x38\x00\x00\x00\x01\
    \x41\x00\x0d\x02\x00\x00\x00\x00\x00\x00\x00\x00\x00\x00\x00\x00";

// Tables with room for a hall of seven; one of four is lent less of them.
#[derive(Clone, Copy, PartialEq, Debug)]
pub struct Tables<Row> {
    pub records: [OpeningRecord; 7],
    pub rounds: [PhasedRound; 105],
    pub places: [Row; 105],
}

// How many rows of each table are lent.
#[derive(Clone, Copy, PartialEq, Debug)]
pub struct Lent {
    pub records: usize,
    pub rounds: usize,
    pub places: usize,
}

// As many as a hall of four needs.
pub const FOR_FOUR: Lent = Lent {
    records: 4,
    rounds: 60,
    places: 36,
};

// As many as a hall of seven needs.
pub const FOR_SEVEN: Lent = Lent {
    records: 7,
    rounds: 105,
    places: 105,
};

// Tables with nothing in them.
pub fn empty_tables<S: Sheet>() -> Tables<S::Row> {
    let record = OpeningRecord {
        slot: Slot::default(),
        ballot: Ballot::unopened(),
    };
    Tables {
        records: [record; 7],
        rounds: [PhasedRound::default(); 105],
        places: [S::empty_row(); 105],
    }
}

// Opens a replica over as much of the tables as is lent.
pub fn open<S: Sheet, const THIRD: bool>(
    n: u8,
    own: u8,
    tables: &mut Tables<S::Row>,
    lent: Lent,
) -> Told<Fresh> {
    let Tables {
        mut records,
        mut rounds,
        mut places,
    } = *tables;
    let opened = Fresh::open::<S, Phased<THIRD>>(
        n,
        own,
        &mut records[..lent.records.min(7)],
        &mut rounds[..lent.rounds.min(105)],
        &mut places[..lent.places.min(105)],
    );
    *tables = Tables {
        records,
        rounds,
        places,
    };
    told(opened)
}

// Offers a sheet over as much of the tables as is lent.
pub fn offer<S: Sheet, C: Coin, const THIRD: bool>(
    fresh: Fresh,
    sheet: &S,
    tables: &mut Tables<S::Row>,
    lent: Lent,
    coin: &mut C,
) -> Result<Running, (Fresh, (u8, usize))> {
    let Tables {
        mut records,
        mut rounds,
        mut places,
    } = *tables;
    let offered = fresh.offer::<S, Phased<THIRD>, C>(
        sheet,
        &mut records[..lent.records.min(7)],
        &mut rounds[..lent.rounds.min(105)],
        &mut places[..lent.places.min(105)],
        coin,
    );
    *tables = Tables {
        records,
        rounds,
        places,
    };
    offered.map_err(|back| (back.0, (back.1.reason.number(), back.1.place)))
}

// A replica that has offered a sheet and is running or closed, under the two-phase rule or, with `THIRD`, the
// three-phase one; it is lent as much of its tables as `lent` says.
#[derive(Drop)]
pub struct Replica<L, S: Sheet, C, const THIRD: bool> {
    pub own: u8,
    pub state: L,
    pub tables: Tables<S::Row>,
    pub lent: Lent,
    pub coin: C,
}

// A running one with takings and a dealt coin, under each rule.
pub type TwoPhased = Replica<Running, Takings, DealtCoin, false>;

pub type ThreePhased = Replica<Running, Takings, DealtCoin, true>;

impl<S: Sheet, C: Coin + Copy, const THIRD: bool> Replica<Running, S, C, THIRD> {
    // Opens a replica of a hall of n, which offers this sheet.
    pub fn offering_in(n: u8, lent: Lent, own: u8, sheet: &S, coin: C) -> Result<Self, Fail> {
        let mut tables = empty_tables::<S>();
        let mut coin = coin;
        let Ok(fresh) = open::<S, THIRD>(n, own, &mut tables, lent) else {
            return Err(Fail::new("open is refused"));
        };
        let offered = offer::<S, C, THIRD>(fresh, sheet, &mut tables, lent, &mut coin);
        let Ok(state) = offered else {
            return Err(Fail::new("offer is refused"));
        };
        Ok(Replica {
            own,
            state,
            tables,
            lent,
            coin,
        })
    }

    // One of a hall of four.
    pub fn offering(own: u8, sheet: &S, coin: C) -> Result<Self, Fail> {
        Self::offering_in(4, FOR_FOUR, own, sheet, coin)
    }

    // Closes, or gives the running replica back with the number and place of the refusal.
    pub fn close(self) -> Result<Replica<Closed, S, C, THIRD>, (Self, (u8, usize))> {
        let Replica {
            own,
            state,
            tables,
            lent,
            coin,
        } = self;
        let closing = state.close::<S, Phased<THIRD>>(
            tables.records_lent(lent),
            tables.rounds_lent(lent),
            tables.places_lent(lent),
        );
        match closing {
            Ok(state) => Ok(Replica {
                own,
                state,
                tables,
                lent,
                coin,
            }),
            Err((state, refusal)) => Err((
                Replica {
                    own,
                    state,
                    tables,
                    lent,
                    coin,
                },
                (refusal.reason.number(), refusal.place),
            )),
        }
    }
}

// What of the tables is lent to be read.
impl<Row> Tables<Row> {
    fn records_lent(&self, lent: Lent) -> &[OpeningRecord] {
        &self.records[..lent.records.min(7)]
    }

    fn rounds_lent(&self, lent: Lent) -> &[PhasedRound] {
        &self.rounds[..lent.rounds.min(105)]
    }

    fn places_lent(&self, lent: Lent) -> &[Row] {
        &self.places[..lent.places.min(105)]
    }
}

impl<S: Sheet, C: Coin + Copy, const THIRD: bool> Replica<Closed, S, C, THIRD> {
    // The entry at an index of the list.
    pub fn entry(&self, index: usize) -> Told<ListEntry<S>> {
        told(
            self.state.list::<S, Phased<THIRD>>(
                index,
                self.tables.records_lent(self.lent),
                self.tables.rounds_lent(self.lent),
                self.tables.places_lent(self.lent),
            ),
        )
    }

    // The number of the replica at an index of the list.
    pub fn listed(&self, index: usize) -> Told<u8> {
        self.entry(index).map(|e| e.replica)
    }

    pub fn record(&self, out: &mut [u8]) -> Told<usize> {
        told(
            self.state.record::<S, Phased<THIRD>, C>(
                out,
                self.tables.records_lent(self.lent),
                self.tables.rounds_lent(self.lent),
                self.tables.places_lent(self.lent),
            ),
        )
    }
}

impl<L: Offered, S: Sheet, C: Coin + Copy, const THIRD: bool> Replica<L, S, C, THIRD> {
    pub fn hear(&mut self, sender: u8, packet: &[u8]) -> Told<Heard> {
        let lent = self.lent;
        let records = &mut self.tables.records[..];
        let rounds = &mut self.tables.rounds[..];
        let places = &mut self.tables.places[..];
        told(
            self.state.hear::<S, Phased<THIRD>, C>(
                sender,
                packet,
                &mut records[..lent.records.min(7)],
                &mut rounds[..lent.rounds.min(105)],
                &mut places[..lent.places.min(105)],
                &mut self.coin,
            ),
        )
    }

    pub fn look(&mut self) -> Told<()> {
        let lent = self.lent;
        let records = &mut self.tables.records[..];
        let rounds = &mut self.tables.rounds[..];
        let places = &mut self.tables.places[..];
        told(
            self.state.look::<S, Phased<THIRD>, C>(
                &mut records[..lent.records.min(7)],
                &mut rounds[..lent.rounds.min(105)],
                &mut places[..lent.places.min(105)],
                &mut self.coin,
            ),
        )
    }

    pub fn say(&self, from: u32, out: &mut [u8]) -> Told<Option<u32>> {
        told(
            self.state.say::<S, Phased<THIRD>, C>(
                from,
                out,
                self.tables.records_lent(self.lent),
                self.tables.rounds_lent(self.lent),
                self.tables.places_lent(self.lent),
                &self.coin,
            ),
        )
    }

    // Whether it has said a message of this position.
    pub fn has_said(&self, position: u32) -> bool {
        let mut out = [0u8; 40];
        self.say(position, &mut out) == Ok(Some(position))
    }

    // Checks that from a position on it has said these messages and no others.
    pub fn check_said(&self, rt: &impl Abort, from: u32, messages: &[&[u8]]) {
        let mut from = from;
        for message in messages {
            let mut out = [0xeeu8; 41];
            let said = self.say(from, &mut out);
            assert!(rt; is_written(&out, message), "from {from}");
            from = said.ok().flatten().unwrap_or(u32::MAX).saturating_add(1);
        }
        assert_eq!(rt; self.say(from, &mut [0u8; 0]), Ok(None));
    }
}

// A packet of a sender, a position, and whether a message of this position is said after the packet was heard.
pub type Turn = (u8, &'static [u8], u32, bool);

// A sender, a packet, and the answer.
pub type Case = (u8, &'static [u8], Told<Heard>);

impl<S: Sheet, C: Coin + Copy, const THIRD: bool> Replica<Running, S, C, THIRD> {
    // Hears each packet in turn, and looks for what is said then.
    pub fn check_turns(&mut self, rt: &impl Abort, turns: &[Turn]) {
        for &(sender, packet, position, said) in turns {
            let heard = self.hear(sender, packet);
            assert!(rt; heard.is_ok());
            assert_eq!(rt; self.has_said(position), said, "{position} after {sender}");
        }
    }
}

impl<C: Coin + Copy, const THIRD: bool> Replica<Running, Takings, C, THIRD> {
    // Hears each packet in turn; an answer other than new leaves the tables as they were.
    pub fn check_cases(&mut self, rt: &impl Abort, cases: &[Case]) {
        for &(sender, packet, wanted) in cases {
            let before = self.tables;
            let answer = self.hear(sender, packet);
            assert_eq!(rt; answer, wanted);
            if answer != Ok(Heard::New) {
                assert!(rt; self.tables == before);
            }
        }
    }
}

// An echo or ready of no takings for a slot.
pub fn sheet_message(tag: u8, slot: u8) -> [u8; 16] {
    [tag, 0, 13, slot, 0, 0, 0, 0, 0, 0, 0, 0, 0, 0, 0, 0]
}

// Replica 0 of four with slots 0, 1 and 2 delivered by the readies of replicas 1 and 2: it has proposed.
pub fn proposed<C: Coin + Copy, const THIRD: bool>(
    coin: C,
) -> Result<Replica<Running, Takings, C, THIRD>, Fail> {
    let mut replica = Replica::offering(0, &Takings::new(0, 0)?, coin)?;
    for slot in 0..3 {
        let _ = replica.hear(1, &sheet_message(0x12, slot));
        let _ = replica.hear(2, &sheet_message(0x12, slot));
    }
    Ok(replica)
}
