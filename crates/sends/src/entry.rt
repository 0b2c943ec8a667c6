// One line of input: a till's number, its takings in cents, and how many receipts.
ghost use Rattle.std.specs.Prelude.{◌≡◌};
ghost use Rattle.sends.specs.Entries.{entry_of};

use std::fmt;
use text::number::{decimal, signed};
use text::words::three_words;

#[derive(Clone, Copy, PartialEq, Eq, Debug)]
pub struct Entry {
    pub till: u8,
    pub cents: i64,
    pub receipts: u32,
}

impl fmt::Display for Entry {
    fn fmt<W: fmt::Write>(&self, f: &mut fmt::Formatter<W>) -> fmt::Result {
        let Entry {
            till,
            cents,
            receipts,
        } = *self;
        write!(f, "till {till}, cents {cents}, receipts {receipts}")
    }
}

// The entry of a line of three numbers with single spaces between them. A till from 256 on and receipts from 2^32 on
// are none; an amount beyond 64 bits is the nearest one, which is out of range all the same. `cast` reads an amount so too:
// two programs share no crate but the library's, and a line of a program is none of its business.
pub fn parse(line: &[u8]) -> Option<Entry>
    ensures { result ≡ entry_of line.now }
{
    let (till, cents, receipts) = three_words(line)?;
    Some(Entry {
        till: u8::try_from(decimal(till)?).ok()?,
        cents: signed(cents)?,
        receipts: u32::try_from(decimal(receipts)?).ok()?,
    })
}
