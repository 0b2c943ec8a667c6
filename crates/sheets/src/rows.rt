// What is done with lent rows of sheets, written once for every kind.
ghost use Rattle.std.specs.Prelude.{◌≡◌, ◌<◌, length, count_by, slice_index_or, slice_set};
ghost use Rattle.std.specs.Option.{option_map};
ghost use Rattle.sheets.specs.Holds.{holds};

use crate::sheet::Sheet;

// How many rows hold the sheet.
pub fn count_same<S: Sheet>(rows: &[S::Row], sheet: &S) -> usize
    ensures { result ≡ count_by (λ x. holds (S.Sheet.bytes sheet.now) (S.Sheet.rows.held x)) rows.now }
{
    rows.iter().filter(|row| sheet.is_in(*row)).count()
}

// Puts the sheet's row in place i; the other places stay.
pub fn put_sheet<S: Sheet>(rows: &mut [S::Row], i: usize, sheet: &S)
    requires { i < length rows.old }
    ensures { rows.new ≡ slice_set rows.old i (S.Sheet.rows.row (S.Sheet.bytes sheet.now)) }
{
    rows[i] = sheet.to_row();
}

// The sheet that the row in place i holds, if any.
pub fn sheet_at<S: Sheet>(rows: &[S::Row], i: usize) -> Option<S>
    requires { i < length rows.now }
    ensures { option_map S.Sheet.bytes result ≡ S.Sheet.rows.held (slice_index_or rows.now i S.Sheet.rows.vacant) }
{
    S::from_row(rows[i])
}
