// Edges of sheets: the largest amount, and the next one.
ghost use Rattle.std.specs.Prelude.{◌≡◌, pos, negsuc, Ok};
ghost use Rattle.basis.specs.Refusals.{refused};
ghost use Rattle.sheets.specs.OfTakings.{fields_told};

use basis::refusal::Refusal;
use sheets::kinds::Takings;

// An amount of 10^12 cents is made, either way.
pub fn largest_amount() -> Result<Takings, Refusal>
    ensures { fields_told result ≡ Ok (record { cents = pos 1000000000000; receipts = 0 }) }
{
    Takings::new(1_000_000_000_000, 0)
}

pub fn smallest_amount() -> Result<Takings, Refusal>
    ensures { fields_told result ≡ Ok (record { cents = negsuc 999999999999; receipts = 0 }) }
{
    Takings::new(-1_000_000_000_000, 0)
}

// 10^12 + 1 is refused with 1.
pub fn too_large_amount() -> Result<Takings, Refusal>
    ensures { fields_told result ≡ refused 1 0 }
{
    Takings::new(1_000_000_000_001, 0)
}
