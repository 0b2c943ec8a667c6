// Edges of opening: hall size 5, own number 4 of four, and one round record too few.
ghost use Rattle.std.specs.Prelude.{◌≡◌};
ghost use Rattle.basis.specs.Refusals.{refused};
ghost use Rattle.replica.specs.Told.{fresh_told};

use basis::refusal::Refusal;
use outcomes::opening_record::OpeningRecord;
use phases::phased::TwoPhase;
use phases::round::PhasedRound;
use replica::states::Fresh;
use sheets::kinds::{Takings, TakingsRow};

// A hall of five is not listed: 2.
pub fn hall_of_five(
    records: &mut [OpeningRecord],
    rounds: &mut [PhasedRound],
    places: &mut [TakingsRow],
) -> Result<Fresh, Refusal>
    ensures { fresh_told result ≡ refused 2 0 }
{
    Fresh::open::<Takings, TwoPhase>(5, 0, records, rounds, places)
}

// The own number is below the hall size: 3.
pub fn number_four_of_four(
    records: &mut [OpeningRecord],
    rounds: &mut [PhasedRound],
    places: &mut [TakingsRow],
) -> Result<Fresh, Refusal>
    ensures { fresh_told result ≡ refused 3 0 }
{
    Fresh::open::<Takings, TwoPhase>(4, 4, records, rounds, places)
}

// Four replicas need 60 round records: 4.
pub fn too_few_rounds(
    records: &mut [OpeningRecord],
    places: &mut [TakingsRow],
) -> Result<Fresh, Refusal>
    ensures { fresh_told result ≡ refused 4 0 }
{
    let mut rounds = [PhasedRound::default(); 59];
    Fresh::open::<Takings, TwoPhase>(4, 0, records, &mut rounds, places)
}
