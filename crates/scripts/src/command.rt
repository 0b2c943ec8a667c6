// What one line of a script asks for, if it is of one of the four forms.
ghost use Rattle.std.specs.Prelude.{◌≡◌, ◌^◌, min, cond, Some, None, nat_lt};
ghost use Rattle.std.specs.Option.{option_map};
ghost use Rattle.text.specs.Decimals.{integer_of};
ghost use Rattle.text.specs.Lines.{words};
ghost use Rattle.scripts.specs.Commands.{only, number, receipts, form_of_lem, rule_of_lem, three_parts, offer, hall_of, offer_of_lem, close_of, Asked, fit, fitted, command_of};
ghost use Rattle.scripts.specs.Written.{line_of, Written};

use text::hex::hex_number;
use text::number::{decimal, signed};
use text::words::{split_piece, three_words};

// The round rules by their words.
#[derive(Clone, Copy, PartialEq, Eq, Debug)]
pub enum RuleName {
    Two,
    Three,
}

// The four forms by the words that begin them.
#[derive(Clone, Copy)]
enum Form {
    Hall,
    Offer,
    Rest,
    Close,
}

// What a line asks for. Its numbers may be out of the hall's range.
#[derive(Clone, Copy, PartialEq, Eq, Debug)]
pub enum Command {
    Hall { n: u8, rule: RuleName, coin: u16 },
    Offer { till: u8, cents: i64, receipts: u32 },
    Rest,
    Close { till: u8 },
}

// The form that a word begins.
fn form_of(word: &[u8]) -> Option<Form>
    ensures { result ≡ form_of_lem word.now }
{
    match word {
        b"hall" => Some(Form::Hall),
        b"offer" => Some(Form::Offer),
        b"rest" => Some(Form::Rest),
        b"close" => Some(Form::Close),
        _ => None,
    }
}

// The number that a word writes; one above 255 counts as 255, which is out of range all the same.
fn small(word: &[u8]) -> Option<u8>
    ensures { result ≡ option_map (λ k. min k 255) (number word.now) }
{
    Some(u8::try_from(decimal(word)?).unwrap_or(u8::MAX))
}

// The number of receipts that a word writes; one that does not fit its type is none.
fn receipts_of(word: &[u8]) -> Option<u32>
    ensures { result ≡ receipts word.now }
{
    u32::try_from(decimal(word)?).ok()
}

// The rule of a word. `FromStr` takes a text, which a line's bytes need not be; `TryFrom` has an error that nobody reads.
fn rule_of(word: &[u8]) -> Option<RuleName>
    ensures { result ≡ rule_of_lem word.now }
{
    match word {
        b"two" => Some(RuleName::Two),
        b"three" => Some(RuleName::Three),
        _ => None,
    }
}

// The word of a text that has only one.
#[tactic(auto, using(crate::proofs::Words::not_only))]
fn only_word(text: &[u8]) -> Option<&[u8]>
    ensures { option_map (λ w. w.now) result ≡ only (words text.now) }
{
    match split_piece(text, b' ') {
        (word, None) => Some(word),
        _ => None,
    }
}

fn parse_hall(more: &[u8]) -> Option<Command>
    ensures { result ≡ fit (hall_of (words more.now)) }
{
    let (n, rule, coin) = three_words(more)?;
    Some(Command::Hall {
        n: small(n)?,
        rule: rule_of(rule)?,
        coin: hex_number(coin)?,
    })
}

// The offer of three words. An amount beyond 64 bits is the nearest one, which is out of range all the same.
#[tactic(auto, using(crate::proofs::Offers::parts_fit))]
fn offer_of(till: &[u8], cents: &[u8], receipts: &[u8]) -> Option<Command>
    ensures { result ≡ fit (three_parts offer (number till.now) (integer_of cents.now) (number receipts.now)) }
{
    Some(Command::Offer {
        till: small(till)?,
        cents: signed(cents)?,
        receipts: receipts_of(receipts)?,
    })
}

fn parse_offer(more: &[u8]) -> Option<Command>
    ensures { result ≡ fit (offer_of_lem (words more.now)) }
{
    let (till, cents, receipts) = three_words(more)?;
    offer_of(till, cents, receipts)
}

fn parse_close(more: &[u8]) -> Option<Command>
    ensures { result ≡ fit (close_of (words more.now)) }
{
    let till = small(only_word(more)?)?;
    Some(Command::Close { till })
}

// What a line asks for, if it is of one of the four forms.
#[tactic(auto, using(crate::proofs::Words::not_alone, crate::proofs::Writing::command_back))]
pub fn parse(line: &[u8]) -> Option<Command>
    ensures value { result ≡ command_of line.now }
    ensures back { (a : Asked) → Written a → line.now ≡ line_of a → result ≡ fitted a }
{
    let (word, more) = split_piece(line, b' ');
    match (form_of(word)?, more) {
        (Form::Hall, Some(more)) => parse_hall(more),
        (Form::Offer, Some(more)) => parse_offer(more),
        (Form::Rest, None) => Some(Command::Rest),
        (Form::Close, Some(more)) => parse_close(more),
        _ => None,
    }
}
