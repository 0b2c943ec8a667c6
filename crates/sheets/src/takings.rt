// Takings as sheets.
ghost use Rattle.std.specs.Prelude.{◌≡◌};
ghost use Rattle.sheets.specs.Holds.{holds};
ghost use Rattle.sheets.specs.OfTakings.{takings_bytes, takings_lawful, takings_held, takings_rows, takings_made, fields_told, in_range_lem};
ghost use Rattle.std.proofs.Common.{eqb-true, rules, arith};
ghost use Rattle.std.proofs.lemmas.Bool.{and_parts};
ghost use Rattle.sheets.specs.OfTakingsLemmas.{amount_octets, takings_alone, amount_lawful, in_range_of, made_of, held_row, kept_of};

use crate::kinds::{Takings, TakingsRow};
use crate::sheet::Sheet;
use basis::refusal::{Reason, Refusal};

// Whether an amount in cents is in range.
fn in_range(cents: i64) -> bool
    ensures { result ≡ in_range_lem cents }
{
    -Takings::MOST <= cents && cents <= Takings::MOST
}

impl Takings {
    // Makes a sheet of takings; refused where the amount is out of range.
    pub fn new(cents: i64, receipts: u32) -> Result<Takings, Refusal>
        ensures { fields_told result ≡ takings_made cents receipts }
    {
        if !in_range(cents) {
            return Err(Reason::AmountOutOfRange.at(0));
        }
        Ok(Takings { cents, receipts })
    }
}

impl Takings {
    // Whether a row is that of these takings. Rows are compared, and not sheets: it is done without a branch for each row
    // that is counted.
    fn is_row(&self, row: TakingsRow) -> bool
        ensures { result ≡ holds (takings_bytes self.now) (takings_held row) }
    {
        row == self.to_row()
    }
}

impl Sheet for Takings {
    type Row = TakingsRow;

    const LEN: usize = 12;

    const KIND: u8 = 1;

    ghost LEN = { 12 };

    ghost KIND = { 1 };

    ghost bytes = { takings_bytes };

    ghost lawful = { takings_lawful };

    ghost rows = { takings_rows };

    ghost short = { first_of (Prim.search rules, Prim.grind arith) };

    ghost sized = { λ s h. eqb-true _ _ (and_parts _ _ h).0 };

    ghost octets = { λ x. amount_octets x.cents x.receipts };

    ghost alone = { λ x y e. takings_alone x y e };

    ghost accepted = { λ x. amount_lawful x.cents x.receipts (in_range_of x) };

    ghost inhabited = { λ s h l. made_of s h l };

    ghost restored = { λ s h l. held_row s h l };

    ghost kept = { λ r s e. kept_of r s e };

    ghost empty = { first_of (Prim.search rules, Prim.grind arith) };

    fn encode(&self, out: &mut [u8]) {
        out[0..8].copy_from_slice(&self.cents.to_be_bytes());
        out[8..12].copy_from_slice(&self.receipts.to_be_bytes());
    }

    fn decode(s: &[u8]) -> Option<Takings> {
        let (cents, rest) = s.split_first_chunk::<8>()?;
        let (receipts, rest) = rest.split_first_chunk::<4>()?;
        if rest.len() > 0 {
            return None;
        }
        Self::from_row(TakingsRow {
            cents: i64::from_be_bytes(*cents),
            receipts: u32::from_be_bytes(*receipts),
        })
    }

    fn to_row(&self) -> TakingsRow {
        TakingsRow {
            cents: self.cents,
            receipts: self.receipts,
        }
    }

    fn from_row(place: TakingsRow) -> Option<Takings> {
        if !in_range(place.cents) {
            return None;
        }
        Some(Takings {
            cents: place.cents,
            receipts: place.receipts,
        })
    }

    fn empty_row() -> TakingsRow {
        TakingsRow {
            cents: i64::MIN,
            receipts: 0,
        }
    }

    fn is_in(&self, place: &TakingsRow) -> bool {
        self.is_row(*place)
    }
}
