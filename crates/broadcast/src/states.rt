// A replica's states are types: a fresh one can only offer, and is used up by it.
ghost use Rattle.std.specs.Prelude.{◌≡◌, length, OnOk};
ghost use Rattle.std.specs.Option.{option_map};
ghost use Rattle.basis.specs.Refusals.{told};
ghost use Rattle.messages.specs.Reading.{syntax};
ghost use Rattle.broadcast.specs.Calls.{Opened, Fresh as NotOffered, Running as HasOffered, of_hall, offer_after, hear_answer, hear_after, large_enough, look_after};
ghost use Rattle.broadcast.specs.Claims.{BroadcastHolds, StepsEnd};
ghost use Rattle.broadcast.specs.Witness.{SomeRunDelivers};
ghost use Rattle.broadcast.specs.Saying.{say_answer, say_output};
ghost use Rattle.slots.specs.Steps.{delivered_sheet_lem};
ghost use Rattle.broadcast.specs.Opening.{fresh_told, open_answer, open_after, offer_told, offer_answer};

use crate::calls::{are_large_enough, hear, look};
use crate::open::clear_to;
use crate::say::say;
use basis::heard::Heard;
use basis::member::Member;
use basis::refusal::{Reason, Refusal};
use messages::message::Phase;
use messages::tags::VoteTags;
use sheets::rows::put_sheet;
use sheets::sheet::Sheet;
use slots::delivered::delivered_sheet;
use slots::places::{place_of, places_in};
use slots::slot::Slot;
use slots::steps::settle;

// A replica that has not offered.
#[derive(Drop)]
pub struct Fresh {
    member: Member,
}

// A replica that has offered.
#[derive(Drop)]
pub struct Running {
    member: Member,
}

// Tables are lent to each call as parameters: a struct that lends them would be seen after the call by position, and
// would owe a clause on each reference. Round records count here by their number alone, whatever a rule keeps in them.
impl Fresh {
    // Opens a replica: a listed hall size, an own number below it, tables that are large enough; it clears them.
    pub fn open<S: Sheet>(
        n: u8,
        own: u8,
        records: &mut [Slot],
        rounds: usize,
        places: &mut [S::Row],
    ) -> Result<Fresh, Refusal>
        ensures answer { fresh_told result ≡ open_answer n own (length records.old) rounds (length places.old) }
        ensures left { record { records = records.exit.now; places = places.new } ≡ open_after S.Sheet.rows n own rounds (record { records = records.entry.now; places = places.old }) }
        ensures opened { OnOk result (Opened S.Sheet.rows (of_hall n S.Sheet.LEN S.Sheet.lawful) (record { life = NotOffered; slots = record { records = records.exit.now; places = places.new }; rounds = rounds })) }
    {
        let member = Member::new(n, own)?;
        if !are_large_enough(n, records.len(), rounds, places.len()) {
            return Err(Reason::TablesTooSmall.at(0));
        }
        clear_to(records, usize::from(n), Slot { delivered: None });
        clear_to(places, places_in(n), S::empty_row());
        Ok(Fresh { member })
    }

    // Offers a sheet: says its send and takes the steps of the own slot. A refused offer keeps the replica fresh.
    pub fn offer<S: Sheet>(
        self,
        records: &mut [Slot],
        rounds: usize,
        places: &mut [S::Row],
        sheet: &S,
    ) -> Result<Running, (Fresh, Refusal)>
        ensures answer { offer_told result ≡ offer_answer self (length records.old) rounds (length places.old) }
        ensures left { record { records = records.exit.now; places = places.new } ≡ (offer_after S.Sheet.rows (of_hall self.member.n S.Sheet.LEN S.Sheet.lawful) self.member.own (S.Sheet.bytes sheet.now) (record { life = NotOffered; slots = (record { records = records.entry.now; places = places.old }); rounds = rounds })).slots }
    {
        if !are_large_enough(self.member.n, records.len(), rounds, places.len()) {
            return Err((self, Reason::TablesTooSmall.at(0)));
        }
        let Fresh { member } = self;
        let Member { n, own } = member;
        put_sheet(places, place_of(n, Phase::Send, own, own), sheet);
        settle::<S>(records, places, n, own, own);
        Ok(Running { member })
    }
}

impl Running {
    // Hears a packet from a sender: the checks in their order, then the message is recorded and its slot's steps are
    // taken.
    pub fn hear<S: Sheet>(
        &self,
        records: &mut [Slot],
        rounds: usize,
        places: &mut [S::Row],
        tags: VoteTags,
        shares: bool,
        sender: u8,
        packet: &[u8],
    ) -> Result<Heard, Refusal>
        ensures answer { told result ≡ hear_answer S.Sheet.rows (syntax S.Sheet.LEN S.Sheet.lawful (record { n = self.now.member.n; tags = tags; shares = shares })) self.now.member.own sender packet.now (record { life = HasOffered; slots = (record { records = records.entry.now; places = places.old }); rounds = rounds }) }
        ensures left { record { records = records.exit.now; places = places.new } ≡ (hear_after S.Sheet.rows (syntax S.Sheet.LEN S.Sheet.lawful (record { n = self.now.member.n; tags = tags; shares = shares })) self.now.member.own sender packet.now (record { life = HasOffered; slots = (record { records = records.entry.now; places = places.old }); rounds = rounds })).slots }
    {
        hear::<S>(
            records,
            rounds,
            places,
            self.member,
            tags,
            shares,
            sender,
            packet,
        )
    }

    // Takes the steps of every slot, the lowest first. A slot's steps end: after three none applies.
    pub fn look<S: Sheet>(
        &self,
        records: &mut [Slot],
        rounds: usize,
        places: &mut [S::Row],
    ) -> Result<(), Refusal>
        ensures answer { told result ≡ large_enough (of_hall self.now.member.n S.Sheet.LEN S.Sheet.lawful) (record { life = HasOffered; slots = (record { records = records.entry.now; places = places.old }); rounds = rounds }) }
        ensures left { record { records = records.exit.now; places = places.new } ≡ (look_after S.Sheet.rows (of_hall self.now.member.n S.Sheet.LEN S.Sheet.lawful) self.now.member.own (record { life = HasOffered; slots = (record { records = records.entry.now; places = places.old }); rounds = rounds })).slots }
        ensures ends { StepsEnd S.Sheet.rows }
    {
        look::<S>(records, rounds, places, self.member)
    }

    // Writes the first message said at or after a position and answers its position, or answers that none is left.
    pub fn say<S: Sheet>(
        &self,
        records: &[Slot],
        rounds: usize,
        places: &[S::Row],
        from: u32,
        out: &mut [u8],
    ) -> Result<Option<u32>, Refusal>
        ensures answer { told result ≡ say_answer S.Sheet.rows self.now.member.n self.now.member.own from (record { life = HasOffered; slots = (record { records = records.entry.now; places = places.now }); rounds = rounds }) out.old }
        ensures output { out.new ≡ say_output S.Sheet.rows self.now.member.n self.now.member.own from (record { life = HasOffered; slots = (record { records = records.entry.now; places = places.now }); rounds = rounds }) out.old }
    {
        say::<S>(records, rounds, places, self.member, from, out)
    }

    // The sheet that is delivered for a slot, if any. In every run honest replicas deliver equal sheets for a slot, an
    // honest replica's as it was offered, and at rest all deliver what one has; and in some run a sheet is delivered.
    pub fn delivered<S: Sheet>(&self, records: &[Slot], places: &[S::Row], slot: u8) -> Option<S>
        ensures value { option_map S.Sheet.bytes result ≡ delivered_sheet_lem S.Sheet.rows self.now.member.n self.now.member.own slot (record { records = records.entry.now; places = places.now }) }
        ensures runs { BroadcastHolds S.Sheet.rows S.Sheet.LEN S.Sheet.lawful }
        ensures witness { SomeRunDelivers }
    {
        delivered_sheet(records, places, self.member.n, self.member.own, slot)
    }
}
