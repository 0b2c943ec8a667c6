// Why a call refuses, and at which place of its input.
ghost use Rattle.std.specs.Prelude.{◌≡◌, Some};
ghost use Rattle.basis.specs.Refusals.{number_of, meaning_of, refusal, in_words, NumbersApart};

use std::fmt;

// The reasons in the order in which a call checks for them; each has a number of its own.
#[derive(Clone, Copy, PartialEq, Eq, Debug)]
pub enum Reason {
    AmountOutOfRange = 1,
    HallSizeNotListed = 2,
    OwnNumberTooLarge = 3,
    TablesTooSmall = 4,
    SenderNotAnother = 5,
    NotOneWholeMessage = 6,
    TagNotUsed = 7,
    WrongLength = 8,
    SlotTooLarge = 9,
    RoundOutOfRange = 10,
    ValueNotLawful = 11,
    SendNotFromSlot = 12,
    Contradiction = 13,
    BallotUndecided = 14,
    SheetMissing = 15,
    OutputTooShort = 16,
    IndexTooLarge = 17,
}

// A refusal: the first check that failed, and the place that it names (0 where it names none).
#[derive(Clone, Copy, PartialEq, Eq, Debug)]
pub struct Refusal {
    pub reason: Reason,
    pub place: usize,
}

// A refusal in words: its number, its place and what it means.
impl fmt::Display for Refusal {
    ghost output = { λ e. Some (in_words e) };

    fn fmt<W: fmt::Write>(&self, f: &mut fmt::Formatter<W>) -> fmt::Result {
        let number = self.reason.number();
        let place = self.place;
        let meaning = self.reason.meaning();
        write!(f, "{number} at {place}: {meaning}")
    }
}

impl Reason {
    // The refusal for this reason at a place.
    pub fn at(self, place: usize) -> Refusal
        ensures { result ≡ refusal self place }
    {
        Refusal {
            reason: self,
            place,
        }
    }

    // The number by which users know the reason; no two reasons share one. A call by the name that users know.
    pub fn number(self) -> u8
        ensures value { result ≡ number_of self }
        ensures apart { NumbersApart }
    {
        self as u8
    }

    // The check that failed, in words.
    pub fn meaning(self) -> &'static str
        ensures { result.now ≡ meaning_of self }
    {
        match self {
            Reason::AmountOutOfRange => "the amount is out of range",
            Reason::HallSizeNotListed => "the hall size is not listed",
            Reason::OwnNumberTooLarge => "the own number is not below the hall size",
            Reason::TablesTooSmall => "the tables are too small",
            Reason::SenderNotAnother => "the sender is not another replica of the hall",
            Reason::NotOneWholeMessage => "the packet is not one whole message",
            Reason::TagNotUsed => "the tag is not used",
            Reason::WrongLength => "the length is wrong for the tag",
            Reason::SlotTooLarge => "the slot is not below the hall size",
            Reason::RoundOutOfRange => "the round is out of range",
            Reason::ValueNotLawful => "the value or sheet is not lawful",
            Reason::SendNotFromSlot => "the send does not come from its slot's replica",
            Reason::Contradiction => "the message contradicts an earlier one",
            Reason::BallotUndecided => "a ballot is undecided",
            Reason::SheetMissing => "a sheet is missing",
            Reason::OutputTooShort => "the output is too short",
            Reason::IndexTooLarge => "the index is not below the count",
        }
    }
}
