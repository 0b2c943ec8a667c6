// Reading a message from a packet: the checks in their order, each with its number and place. All of it is inlined, so
// that no message, and no refusal, passes through memory on the way to the call that hears it.
ghost use Rattle.std.specs.Prelude.{◌≡◌, ◌+◌, ◌≤◌, cond, length, IfOk, Ok, slice_index};
ghost use Rattle.basis.specs.Refusals.{refused, told};
ghost use Rattle.messages.specs.Tags.{phase_tag, vote_tag, kind_tag, kind_shape};
ghost use Rattle.messages.specs.Writing.{body_length};
ghost use Rattle.messages.specs.Reading.{syntax, plain, kind_told, head_reading, value_reading, body_reading, reading, round_in, Exact};

use crate::message::{BitSet, Kind, Message, Part, Phase, Shape, Vote};
use crate::tags::Format;
use crate::write::HEAD;
use basis::refusal::{Reason, Refusal};
use sheets::sheet::Sheet;

// The last round.
pub const LAST_ROUND: u8 = 15;

// The largest share.
pub const LARGEST_SHARE: u8 = 250;

// How many bytes follow the tag and the length.
pub fn body_len<S: Sheet>(shape: Shape) -> usize
    ensures { result ≡ body_length S.Sheet.LEN shape }
{
    match shape {
        Shape::Sheet => S::LEN + 1,
        Shape::Bit | Shape::Set | Shape::Share => 3,
    }
}

// The kind of a packet that is one whole message with a used tag and its right length.
#[inline(always)]
fn read_head<S: Sheet>(packet: &[u8], format: Format) -> Result<Kind, Refusal>
    ensures answer { kind_told result ≡ head_reading (syntax S.Sheet.LEN S.Sheet.lawful format) packet.now }
    ensures tag { IfOk result (λ k. kind_tag k ≡ slice_index packet.now 0) }
    ensures len { IfOk result (λ k. length packet.now ≡ 3 + body_length S.Sheet.LEN (kind_shape k)) }
{
    let len = packet.len();
    let [tag, high, low, ..] = packet else {
        return Err(Reason::NotOneWholeMessage.at(len));
    };
    let end = HEAD + usize::from(u16::from_be_bytes([*high, *low]));
    if len != end {
        return Err(Reason::NotOneWholeMessage.at(len.min(end)));
    }
    let kind = Kind::of(*tag, format).ok_or(Reason::TagNotUsed.at(0))?;
    if end != HEAD + body_len::<S>(kind.shape()) {
        return Err(Reason::WrongLength.at(1));
    }
    Ok(kind)
}

// The round of a packet, if it is one of those from the first on. Bytes are read by their places, which refusals name.
fn read_round(packet: &[u8], first: u8) -> Result<u8, Refusal>
    requires { 6 ≤ length packet.now }
    ensures { told result ≡ cond (round_in first packet.now) (Ok (slice_index packet.now 4)) (refused 10 4) }
{
    let round = packet[4];
    if round < first || round > LAST_ROUND {
        return Err(Reason::RoundOutOfRange.at(4));
    }
    Ok(round)
}

#[inline(always)]
fn read_sheet<'a, S: Sheet>(
    packet: &'a [u8],
    format: Format,
    phase: Phase,
) -> Result<Message<Part<'a>>, Refusal>
    requires len { 4 ≤ length packet.now }
    requires tag { phase_tag phase ≡ slice_index packet.now 0 }
    ensures { plain result ≡ value_reading (syntax S.Sheet.LEN S.Sheet.lawful format) packet.now Shape.Sheet }
{
    let bytes = &packet[4..];
    if S::decode(bytes).is_none() {
        return Err(Reason::ValueNotLawful.at(4));
    }
    Ok(Message::Sheet {
        phase,
        slot: packet[3],
        sheet: Part { at: 4, bytes },
    })
}

#[inline(always)]
fn read_bit<'a, S: Sheet>(
    packet: &'a [u8],
    format: Format,
    vote: Vote,
) -> Result<Message<Part<'a>>, Refusal>
    requires len { 6 ≤ length packet.now }
    requires tag { vote_tag vote ≡ slice_index packet.now 0 }
    ensures { plain result ≡ value_reading (syntax S.Sheet.LEN S.Sheet.lawful format) packet.now Shape.Bit }
{
    let round = read_round(packet, 0)?;
    if packet[5] > 1 {
        return Err(Reason::ValueNotLawful.at(5));
    }
    Ok(Message::Bit {
        vote,
        slot: packet[3],
        round,
        bit: packet[5] == 1,
    })
}

#[inline(always)]
fn read_set<'a, S: Sheet>(
    packet: &'a [u8],
    format: Format,
    tag: u8,
) -> Result<Message<Part<'a>>, Refusal>
    requires len { 6 ≤ length packet.now }
    requires tag { tag ≡ slice_index packet.now 0 }
    ensures { plain result ≡ value_reading (syntax S.Sheet.LEN S.Sheet.lawful format) packet.now Shape.Set }
{
    let round = read_round(packet, 1)?;
    let Ok(bits) = BitSet::try_from(packet[5]) else {
        return Err(Reason::ValueNotLawful.at(5));
    };
    Ok(Message::Set {
        tag,
        slot: packet[3],
        round,
        bits,
    })
}

#[inline(always)]
fn read_share<'a, S: Sheet>(packet: &'a [u8], format: Format) -> Result<Message<Part<'a>>, Refusal>
    requires { 6 ≤ length packet.now }
    ensures { plain result ≡ value_reading (syntax S.Sheet.LEN S.Sheet.lawful format) packet.now Shape.Share }
{
    let round = read_round(packet, 1)?;
    if packet[5] > LARGEST_SHARE {
        return Err(Reason::ValueNotLawful.at(5));
    }
    Ok(Message::Share {
        slot: packet[3],
        round,
        share: packet[5],
    })
}

// The slot, the round and the value of a packet whose length is right for its kind.
#[inline(always)]
fn read_body<'a, S: Sheet>(
    packet: &'a [u8],
    format: Format,
    kind: Kind,
) -> Result<Message<Part<'a>>, Refusal>
    requires len { length packet.now ≡ 3 + body_length S.Sheet.LEN (kind_shape kind) }
    requires tag { kind_tag kind ≡ slice_index packet.now 0 }
    ensures { plain result ≡ body_reading (syntax S.Sheet.LEN S.Sheet.lawful format) packet.now (kind_shape kind) }
{
    if packet[3] >= format.n {
        return Err(Reason::SlotTooLarge.at(3));
    }
    match kind {
        Kind::Sheet(phase) => read_sheet::<S>(packet, format, phase),
        Kind::Bit(vote) => read_bit::<S>(packet, format, vote),
        Kind::Set(tag) => read_set::<S>(packet, format, tag),
        Kind::Share => read_share::<S>(packet, format),
    }
}

// The message that a packet is, its sheet as that part of the packet; or the first check that fails, with its place.
// A packet is accepted exactly if it is the writing of a lawful message, which is then the one read.
#[inline(always)]
pub fn read<'a, S: Sheet>(packet: &'a [u8], format: Format) -> Result<Message<Part<'a>>, Refusal>
    ensures answer { plain result ≡ reading (syntax S.Sheet.LEN S.Sheet.lawful format) packet.now }
    ensures exact { Exact (syntax S.Sheet.LEN S.Sheet.lawful format) }
{
    let kind = read_head::<S>(packet, format)?;
    read_body::<S>(packet, format, kind)
}
