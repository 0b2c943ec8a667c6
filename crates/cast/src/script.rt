// The lines of a script: what each of them asks for.
ghost use Rattle.std.specs.Prelude.{◌≡◌};
ghost use Rattle.cast.specs.Commands.{small_of, amount_of_lem, phase_of_lem, offer_of, forgery_of, bare_command, full_command, command_of};

use basis::refusal::Refusal;
use messages::message::Phase;
use sheets::kinds::Takings;
use std::fmt;
use text::number::{decimal, signed};
use text::words::{split_piece, three_words};

// Takings as a line gives them; the amount may be out of range.
#[derive(Clone, Copy)]
pub struct Amount {
    pub cents: i64,
    pub receipts: u32,
}

impl TryFrom<Amount> for Takings {
    type Error = Refusal;

    fn try_from(amount: Amount) -> Result<Takings, Refusal> {
        Takings::new(amount.cents, amount.receipts)
    }
}

impl fmt::Display for Amount {
    fn fmt<W: fmt::Write>(&self, f: &mut fmt::Formatter<W>) -> fmt::Result {
        let Amount { cents, receipts } = *self;
        write!(f, "{cents} {receipts}")
    }
}

// A till offers.
#[derive(Clone, Copy)]
pub struct Offer {
    pub till: u8,
    pub amount: Amount,
}

// A faulty till says a message to another till.
#[derive(Clone, Copy)]
pub struct Forgery {
    pub from: u8,
    pub to: u8,
    pub phase: Phase,
    pub slot: u8,
    pub amount: Amount,
}

#[derive(Clone, Copy)]
pub enum Command {
    Hall(u8),
    Offer(Offer),
    Forge(Forgery),
    Rest,
    Show,
}

// The number that a word writes; one above 255 counts as 255, which is out of range all the same.
fn small(word: &[u8]) -> Option<u8>
    ensures { result ≡ small_of word.now }
{
    Some(u8::try_from(decimal(word)?).unwrap_or(u8::MAX))
}

// An amount beyond 64 bits is the nearest one, which is out of range all the same; receipts from 2^32 on are none.
fn amount_of(cents: &[u8], receipts: &[u8]) -> Option<Amount>
    ensures { result ≡ amount_of_lem cents.now receipts.now }
{
    Some(Amount {
        cents: signed(cents)?,
        receipts: u32::try_from(decimal(receipts)?).ok()?,
    })
}

// The phase of a word. `FromStr` takes a text, which a line's bytes need not be; `TryFrom` has an error that nobody reads.
fn phase_of(word: &[u8]) -> Option<Phase>
    ensures { result ≡ phase_of_lem word.now }
{
    match word {
        b"send" => Some(Phase::Send),
        b"echo" => Some(Phase::Echo),
        b"ready" => Some(Phase::Ready),
        _ => None,
    }
}

fn parse_offer(words: &[u8]) -> Option<Offer>
    ensures { result ≡ offer_of words.now }
{
    let (till, cents, receipts) = three_words(words)?;
    Some(Offer {
        till: small(till)?,
        amount: amount_of(cents, receipts)?,
    })
}

fn parse_forgery(words: &[u8]) -> Option<Forgery>
    ensures { result ≡ forgery_of words.now }
{
    let (from, rest) = split_piece(words, b' ');
    let (to, rest) = split_piece(rest?, b' ');
    let (phase, rest) = split_piece(rest?, b' ');
    let (slot, cents, receipts) = three_words(rest?)?;
    Some(Forgery {
        from: small(from)?,
        to: small(to)?,
        phase: phase_of(phase)?,
        slot: small(slot)?,
        amount: amount_of(cents, receipts)?,
    })
}

// What a line of one word asks for.
fn parse_bare(word: &[u8]) -> Option<Command>
    ensures { result ≡ bare_command word.now }
{
    match word {
        b"rest" => Some(Command::Rest),
        b"show" => Some(Command::Show),
        _ => None,
    }
}

// What a line of a word and more asks for.
fn parse_full(word: &[u8], more: &[u8]) -> Option<Command>
    ensures { result ≡ full_command word.now more.now }
{
    match word {
        b"hall" => small(more).map(Command::Hall),
        b"offer" => parse_offer(more).map(Command::Offer),
        b"forge" => parse_forgery(more).map(Command::Forge),
        _ => None,
    }
}

// What a line asks for, if it is of one of the five forms.
pub fn parse(line: &[u8]) -> Option<Command>
    ensures { result ≡ command_of line.now }
{
    match split_piece(line, b' ') {
        (word, None) => parse_bare(word),
        (word, Some(more)) => parse_full(word, more),
    }
}
