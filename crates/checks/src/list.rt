// The list asked for, as the caller's own part of the table that it lent.
ghost use Rattle.std.specs.Prelude.{◌≡◌};
ghost use Rattle.checks.specs.Answer.{list_answer};

use day::day::Day;
use day::vehicle::Van;
use refusals::refusal_of;

// The visits of the list asked for. It always answers a part: an empty one where the call is refused; `refusal_of` says by which refusal.
pub fn list_of<'a>(
    day: &Day,
    van: Van,
    visits: &'a [u16],
    lengths: &[u16],
    list: usize,
) -> &'a [u16]
    ensures answer { result.now ≡ list_answer day.now van visits.now lengths.now list }
{
    match refusal_of(day, van, visits, lengths, list) {
        Ok(()) => lists::list_of(visits, lengths, list),
        Err(_) => &visits[0..0],
    }
}
