// Tables as a closed replica is lent them for its record.
use outcomes::opening_record::OpeningRecord;
use phases::round::PhasedRound;

// Opening records, rounds under one of the two supplied rules, and rows of one kind of sheet.
#[derive(Clone, Copy)]
pub struct Tables<'a, Row> {
    pub records: &'a [OpeningRecord],
    pub rounds: &'a [PhasedRound],
    pub places: &'a [Row],
}
