// What a kind of sheet is. Code over any kind is written once, under this bound.
ghost use Rattle.std.specs.Prelude.{◌≡◌, ℕ, ◌+◌, ◌<◌, ◌≤◌, Bool, true, List, ◌++◌, length, drop, Some, None, Option};
ghost use Rattle.std.specs.Option.{option_map};
ghost use Rattle.basis.specs.Bytes.{Octets};
ghost use Rattle.sheets.specs.Holds.{Rows, holds, if_lawful};

pub trait Sheet: Copy {
    // what a table holds in the place of a sheet: plain numbers, which may be no sheet
    type Row: Copy;

    // the length in bytes, and the number of the kind in a closing record
    const LEN: usize;

    const KIND: u8;

    ghost LEN: { ℕ };

    ghost KIND: { ℕ };

    // the bytes of a sheet
    ghost bytes: { Self → List ℕ };

    // which bytes are those of a sheet
    ghost lawful: { List ℕ → Bool };

    // what rows hold: a row that fails the kind's check holds no sheet
    ghost rows: { Rows Self.Row };

    fn encode(&self, out: &mut [u8])
        requires { LEN ≤ length out.old }
        ensures { out.new ≡ bytes self.now ++ drop LEN out.old };

    fn decode(s: &[u8]) -> Option<Self>
        ensures { option_map bytes result ≡ if_lawful lawful s.now };

    // From, TryFrom and Default of rows would each have a ghost member of its own for what `rows` says in one.
    fn to_row(&self) -> Self::Row
        ensures { result ≡ rows.row (bytes self.now) };

    fn from_row(place: Self::Row) -> Option<Self>
        ensures { option_map bytes result ≡ rows.held place };

    fn empty_row() -> Self::Row
        ensures { result ≡ rows.vacant };

    // Whether a row holds this sheet. Each kind says so itself: a body here would ask `Eq` of every kind.
    fn is_in(&self, place: &Self::Row) -> bool
        ensures { result ≡ holds (bytes self.now) (rows.held place.now) };

    ghost short: { LEN + 1 < 65536 };

    ghost sized: { (s : List ℕ) → lawful s ≡ true → length s ≡ LEN };

    ghost octets: { (x : Self) → Octets (bytes x) };

    // the same bytes, the same sheet
    ghost alone: { (x y : Self) → bytes x ≡ bytes y → x ≡ y };

    // bytes are lawful exactly if they are those of a sheet
    ghost accepted: { (x : Self) → lawful (bytes x) ≡ true };

    ghost inhabited: { (s : List ℕ) → Octets s → lawful s ≡ true → (x : Self) × (bytes x ≡ s) };

    // a row gives back the sheet that it was made of, and holds nothing else
    ghost restored: { (s : List ℕ) → Octets s → length s ≡ LEN → rows.held (rows.row s) ≡ if_lawful lawful s };

    ghost kept: { (r : Self.Row) (s : List ℕ) → rows.held r ≡ Some s → (lawful s ≡ true) × Octets s };

    ghost empty: { rows.held rows.vacant ≡ None };
}
