// An entry's way: made into a sheet, written as a send message, and read back.
ghost use Rattle.std.specs.Prelude.{◌≡◌};
ghost use Rattle.basis.specs.Refusals.{told};
ghost use Rattle.messages.specs.Reading.{part_placed};
ghost use Rattle.messages.specs.Writing.{on_sheet};
ghost use Rattle.sends.specs.Entries.{carried, sent, send_answer, send_output, received, trip_answer};

use crate::entry::Entry;
use basis::refusal::Refusal;
use messages::message::{Message, Part, Phase};
use messages::read::read;
use messages::tags::{Format, VoteTags};
use sheets::kinds::Takings;
use sheets::sheet::Sheet;

// The hall that the messages are for.
pub const HALL: u8 = 4;

// The entry of a send message for a slot, if the bytes of its sheet are takings.
fn entry_at(slot: u8, bytes: &[u8]) -> Option<Entry>
    ensures { result ≡ carried slot bytes.now }
{
    let takings = Takings::decode(bytes)?;
    Some(Entry {
        till: slot,
        cents: takings.cents,
        receipts: takings.receipts,
    })
}

// The entry that a message carries, if it is a send message of takings.
fn sent_entry(message: Message<Part<'_>>) -> Option<Entry>
    ensures { result ≡ sent (on_sheet part_placed message.entry) }
{
    match message {
        Message::Sheet {
            phase: Phase::Send,
            slot,
            sheet,
        } => entry_at(slot, sheet.bytes),
        _ => None,
    }
}

// Makes the entry's sheet and writes it as a send message at the start of the output; answers the message's length.
fn send(entry: Entry, out: &mut [u8]) -> Result<usize, Refusal>
    ensures answer { told result ≡ send_answer «entry» out.old }
    ensures output { out.new ≡ send_output «entry» out.old }
{
    let sheet = Takings::new(entry.cents, entry.receipts)?;
    let message = Message::Sheet {
        phase: Phase::Send,
        slot: entry.till,
        sheet,
    };
    message.write(out)
}

// Reads a packet for the hall, and the entry that it carries.
fn receive(packet: &[u8]) -> Result<Option<Entry>, Refusal>
    ensures { told result ≡ received packet.now }
{
    let format = Format {
        n: HALL,
        tags: VoteTags::basic(),
        shares: false,
    };
    Ok(sent_entry(read::<Takings>(packet, format)?))
}

// Sends the entry and receives what was sent. Whatever is neither out of range nor of a till beyond the hall comes back
// as it was entered.
pub fn round_trip(entry: Entry, out: &mut [u8]) -> Result<Option<Entry>, Refusal>
    ensures answer { told result ≡ trip_answer «entry» out.old }
    ensures output { out.new ≡ send_output «entry» out.old }
{
    let len = send(entry, out)?;
    receive(&out[..len])
}
