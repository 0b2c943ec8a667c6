// The lines that a close prints.
ghost use Rattle.std.specs.Prelude.{◌≡◌, ◌<◌, length, IfOk, IfSome, string_bytes};
ghost use Rattle.std.specs.Option.{option_map};
ghost use Rattle.basis.specs.Refusals.{number_of};
ghost use Rattle.sheets.specs.OfTakings.{takings_rows};
ghost use Rattle.halls.specs.Prints.{closes_text, refused_text, field_split, split_lines, RecordLines};

use basis::refusal::Refusal;
use std::alloc::{AllocError, Global};
use text::hex::push_hex;

// The first field of a record, with its tag and length, and what follows it.
fn split_field(record: &[u8]) -> Option<(&[u8], &[u8])>
    ensures value { option_map (λ p. (p.0.now, p.1.now)) result ≡ field_split «record».now }
    ensures shorter { IfSome result (λ p. length p.1.now < length «record».now) }
{
    let [_, high, low, ..] = record else {
        return None;
    };
    let end = 3 + usize::from(u16::from_be_bytes([*high, *low]));
    record.split_at_checked(end)
}

// The lines of an accepted close: that the till closes, and each field of its closing record.
#[tactic(auto, using(crate::proofs::Printing::of_takings))]
pub fn closing_lines(heap: Global, till: u8, record: &[u8]) -> Result<String, AllocError>
    ensures lines { IfOk result (λ s. string_bytes s ≡ closes_text till (split_lines «record».now)) }
    ensures of_record { RecordLines takings_rows 12 1 «record».now }
{
    let mut lines = format!(in heap; "till {till} closes\n")?;
    let mut rest = record;
    while let Some((field, more)) = split_field(rest) {
        push_hex(&mut lines, field)?;
        lines.push('\n')?;
        rest = more;
    }
    Ok(lines)
}

// The line of a refused close.
pub fn refused_line(heap: Global, till: u8, refusal: Refusal) -> Result<String, AllocError>
    ensures { IfOk result (λ s. string_bytes s ≡ refused_text till (number_of refusal.reason) refusal.place) }
{
    let number = refusal.reason.number();
    let place = refusal.place;
    format!(in heap; "till {till} refused {number} {place}\n")
}
