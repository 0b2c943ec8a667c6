// All edges of a hall of four at once.
ghost use Rattle.std.specs.Prelude.{◌≡◌, pos, negsuc, true, false, Ok, Some, None};
ghost use Rattle.basis.specs.Refusals.{refused};
ghost use Rattle.messages.specs.Reading.{plain};
ghost use Rattle.replica.specs.Told.{fresh_told};
ghost use Rattle.sheets.specs.OfTakings.{fields_told};

use crate::ballot_edges::{
    Standing, proposed_one_hears_one, proposed_one_hears_two, proposed_zero_hears_one,
    proposed_zero_hears_two,
};
use crate::coin_edges::{one_wrong_of_four, one_wrong_of_three};
use crate::messages_edges::{
    empty_packet, surplus_byte, third_vote_not_used, third_vote_of_round_0,
};
use crate::open_edges::{hall_of_five, number_four_of_four, too_few_rounds};
use crate::sheets_edges::{largest_amount, smallest_amount, too_large_amount};
use basis::refusal::Refusal;
use coins::coin::Coin;
use messages::message::{Message, Part};
use outcomes::opening_record::OpeningRecord;
use phases::round::PhasedRound;
use replica::states::Fresh;
use sheets::kinds::{Takings, TakingsRow};

// What the calls answer: making a sheet, opening, reading, voting, tossing.
#[derive(Drop)]
pub struct Edges {
    pub largest: Result<Takings, Refusal>,
    pub smallest: Result<Takings, Refusal>,
    pub too_large: Result<Takings, Refusal>,
    pub five: Result<Fresh, Refusal>,
    pub number: Result<Fresh, Refusal>,
    pub few: Result<Fresh, Refusal>,
    pub empty: Result<Message<Part<'static>>, Refusal>,
    pub surplus: Result<Message<Part<'static>>, Refusal>,
    pub third: Result<Message<Part<'static>>, Refusal>,
    pub unused: Result<Message<Part<'static>>, Refusal>,
    pub one_of_one: Standing,
    pub two_of_one: Standing,
    pub one_of_zero: Standing,
    pub two_of_zero: Standing,
    pub four_shares: Result<Option<bool>, Refusal>,
    pub three_shares: Result<Option<bool>, Refusal>,
}

// Makes all these calls, opening over any tables and voting under either rule and any coin.
pub fn edges_of_four<const THIRD: bool, C: Coin>(
    records: &mut [OpeningRecord],
    rounds: &mut [PhasedRound],
    places: &mut [TakingsRow],
    coin: &mut C,
) -> Edges
    ensures largest { fields_told result.largest ≡ Ok (record { cents = pos 1000000000000; receipts = 0 }) }
    ensures smallest { fields_told result.smallest ≡ Ok (record { cents = negsuc 999999999999; receipts = 0 }) }
    ensures too_large { fields_told result.too_large ≡ refused 1 0 }
    ensures five { fresh_told result.five ≡ refused 2 0 }
    ensures number { fresh_told result.number ≡ refused 3 0 }
    ensures few { fresh_told result.few ≡ refused 4 0 }
    ensures empty { plain result.empty ≡ refused 6 0 }
    ensures surplus { plain result.surplus ≡ refused 6 6 }
    ensures third { plain result.third ≡ refused 10 4 }
    ensures unused { plain result.unused ≡ refused 7 0 }
    ensures one_of_one { result.one_of_one ≡ record { decided = None; entered = None; first_zero = false; first_one = true; second_zero = false; second_one = true } }
    ensures two_of_one { result.two_of_one ≡ record { decided = Some true; entered = Some true; first_zero = false; first_one = true; second_zero = false; second_one = true } }
    ensures one_of_zero { result.one_of_zero ≡ record { decided = None; entered = None; first_zero = true; first_one = false; second_zero = false; second_one = false } }
    ensures two_of_zero { result.two_of_zero ≡ record { decided = None; entered = None; first_zero = true; first_one = true; second_zero = false; second_one = true } }
    ensures four_shares { result.four_shares ≡ Ok (Some true) }
    ensures three_shares { result.three_shares ≡ Ok None }
{
    Edges {
        largest: largest_amount(),
        smallest: smallest_amount(),
        too_large: too_large_amount(),
        five: hall_of_five(records, rounds, places),
        number: number_four_of_four(records, rounds, places),
        few: too_few_rounds(records, places),
        empty: empty_packet(),
        surplus: surplus_byte(),
        third: third_vote_of_round_0(),
        unused: third_vote_not_used(),
        one_of_one: proposed_one_hears_one::<THIRD, C>(coin),
        two_of_one: proposed_one_hears_two::<THIRD, C>(coin),
        one_of_zero: proposed_zero_hears_one::<THIRD, C>(coin),
        two_of_zero: proposed_zero_hears_two::<THIRD, C>(coin),
        four_shares: one_wrong_of_four(),
        three_shares: one_wrong_of_three(),
    }
}
