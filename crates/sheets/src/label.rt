// Labels as sheets.
ghost use Rattle.std.specs.Prelude.{◌≡◌};
ghost use Rattle.sheets.specs.OfLabels.{label_bytes, label_lawful, label_rows};
ghost use Rattle.sheets.specs.OfLabelsLemmas.{file_octets, label_alone, made_of, held_row, kept_of};
ghost use Rattle.std.proofs.Common.{rules, arith};

use crate::kinds::{Label, LabelRow};
use crate::sheet::Sheet;

impl Sheet for Label {
    type Row = LabelRow;

    const LEN: usize = 36;

    const KIND: u8 = 2;

    ghost LEN = { 36 };

    ghost KIND = { 2 };

    ghost bytes = { label_bytes };

    ghost lawful = { label_lawful };

    ghost rows = { label_rows };

    ghost short = { first_of (Prim.search rules, Prim.grind arith) };

    ghost sized = { first_of (Prim.search rules, Prim.grind arith) };

    ghost octets = { λ x. file_octets x.fingerprint x.size };

    ghost alone = { λ x y e. label_alone x y e };

    ghost accepted = { first_of (Prim.search rules, Prim.grind arith) };

    ghost inhabited = { λ s h l. made_of s h l };

    ghost restored = { λ s h l. held_row s h l };

    ghost kept = { λ r s e. kept_of r s e };

    ghost empty = { first_of (Prim.search rules, Prim.grind arith) };

    // The four numbers are written out, here and in `decode`: a loop over them needs an invariant, and says no more.
    fn encode(&self, out: &mut [u8]) {
        out[0..8].copy_from_slice(&self.fingerprint[0].to_be_bytes());
        out[8..16].copy_from_slice(&self.fingerprint[1].to_be_bytes());
        out[16..24].copy_from_slice(&self.fingerprint[2].to_be_bytes());
        out[24..32].copy_from_slice(&self.fingerprint[3].to_be_bytes());
        out[32..36].copy_from_slice(&self.size.to_be_bytes());
    }

    fn decode(s: &[u8]) -> Option<Label> {
        let (a, s) = s.split_first_chunk::<8>()?;
        let (b, s) = s.split_first_chunk::<8>()?;
        let (c, s) = s.split_first_chunk::<8>()?;
        let (d, s) = s.split_first_chunk::<8>()?;
        let (n, s) = s.split_first_chunk::<4>()?;
        if s.len() > 0 {
            return None;
        }
        let fingerprint = [
            u64::from_be_bytes(*a),
            u64::from_be_bytes(*b),
            u64::from_be_bytes(*c),
            u64::from_be_bytes(*d),
        ];
        let size = u32::from_be_bytes(*n);
        Some(Label { fingerprint, size })
    }

    fn to_row(&self) -> LabelRow {
        let fingerprint = self.fingerprint;
        LabelRow {
            present: true,
            fingerprint,
            size: self.size,
        }
    }

    fn from_row(place: LabelRow) -> Option<Label> {
        if !place.present {
            return None;
        }
        let fingerprint = place.fingerprint;
        Some(Label {
            fingerprint,
            size: place.size,
        })
    }

    fn empty_row() -> LabelRow {
        LabelRow {
            present: false,
            fingerprint: [0, 0, 0, 0],
            size: 0,
        }
    }

    fn is_in(&self, place: &LabelRow) -> bool {
        Self::from_row(*place) == Some(*self)
    }
}
