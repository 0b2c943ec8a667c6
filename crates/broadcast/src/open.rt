// Clearing the tables of a replica that opens.
ghost use Rattle.std.specs.Prelude.{◌≡◌, ◌<◌, ◌≤◌, length};
ghost use Rattle.broadcast.specs.Opening.{cleared_to};

// Clears the first rows of a table; the others stay. The library's `fill` asks for a clone that cannot fail, of which a
// bound on rows says nothing.
pub fn clear_to<T: Copy>(rows: &mut [T], count: usize, empty: T)
    requires { count ≤ length rows.old }
    ensures { rows.new ≡ cleared_to count empty rows.old }
{
    for row in &mut rows[..count] {
        *row = empty;
    }
}
