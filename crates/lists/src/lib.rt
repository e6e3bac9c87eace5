// The lists of a call: one table of visits, the lists one after another, and one of their lengths. Where a list lies, and a list as the caller's own part of
// the table (specs/Table.antt says how the two tables go together with a list of lists).

#![tactic(auto)]

ghost use Rattle.std.specs.Prelude.{◌≡◌, ◌+◌, ◌≤◌, ◌<◌, length, get_or};
ghost use Rattle.lists.specs.Table.{Laid, start_of, list_of};

// Where the visit at `position` of list r stands in the table: behind the lists before r. Sixteen lengths can't wrap.
pub fn place_of(lengths: &[u16], r: usize, position: usize) -> usize
    requires { (r ≤ length lengths.now) × (r ≤ 16) × (position ≤ 65535) }
    ensures { result ≡ start_of lengths.now r + position }
{
    let mut place = position;
    for length in &lengths[..r] {
        place += usize::from(*length);
    }
    place
}

// Where list r starts.
pub fn start_of(lengths: &[u16], r: usize) -> usize
    requires { (r ≤ length lengths.now) × (r ≤ 16) }
    ensures { result ≡ start_of lengths.now r }
{
    place_of(lengths, r, 0)
}

// How many visits list r has.
pub fn length_of(lengths: &[u16], r: usize) -> usize
    requires { r < length lengths.now }
    ensures { (result ≡ get_or lengths.now r 0) × (result ≤ 65535) }
{
    usize::from(lengths[r])
}

// Where list r ends.
pub fn end_of(lengths: &[u16], r: usize) -> usize
    requires { (r < length lengths.now) × (r ≤ 16) }
    ensures { result ≡ start_of lengths.now r + get_or lengths.now r 0 }
{
    place_of(lengths, r, length_of(lengths, r))
}

// List r, as the caller's own part of the table.
pub fn list_of<'a>(visits: &'a [u16], lengths: &[u16], r: usize) -> &'a [u16]
    requires { Laid visits.now lengths.now × (r < length lengths.now) }
    ensures { result.now ≡ list_of visits.now lengths.now r }
{
    let start = start_of(lengths, r);
    let end = start + length_of(lengths, r);
    &visits[start..end]
}
