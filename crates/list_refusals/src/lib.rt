// Refusals 8 to 10 of document 01, those of the lists, found in the order of their numbers.

#![tactic(auto, using(lists::proofs::Tables::start_all, crate::proofs::Fine::offices_small), unfolding(tests::specs::All::unless, crate::specs::Refused::shape_ok, crate::specs::Refused::visit_ok, crate::specs::Refused::table_refusal, crate::specs::Refused::lists_refusal))]

ghost use Rattle.std.specs.Prelude.{◌≡◌, ℕ, ◌≤◌, ◌<◌, length, get_or};
ghost use Rattle.day.specs.Number.{number_of};
ghost use Rattle.list_refusals.specs.Refused.{all_short, shape_ok, visit_ok, visits_ok, distinct, table_refusal, lists_refusal};

use day::refusal::Refusal;
use lists::start_of;

// Whether no list is longer than 63.
fn all_short(lengths: &[u16]) -> bool
    ensures { result ≡ all_short lengths.now }
{
    lengths.iter().all(|length| *length <= 63)
}

// Whether 8 holds of no list: few enough, as long in all as the table, and none too long.
fn shape_ok(visits: &[u16], lengths: &[u16]) -> bool
    ensures { result ≡ shape_ok visits.now lengths.now }
{
    let n = lengths.len();
    n <= 16 && start_of(lengths, n) == visits.len() && all_short(lengths)
}

// Whether a visit is an office of the day.
fn visit_ok(depots: usize, l: usize, visit: u16) -> bool
    ensures { result ≡ visit_ok depots l visit }
{
    let office = usize::from(visit);
    depots <= office && office < l
}

// Whether each visit is.
fn visits_ok(depots: usize, l: usize, visits: &[u16]) -> bool
    ensures { result ≡ visits_ok depots l visits.now }
{
    visits.iter().all(|visit| visit_ok(depots, l, *visit))
}

// Whether no office stands twice: it stops at the first that does. An office is marked as seen where it is passed, so that one that is marked stood earlier.
fn all_distinct(visits: &[u16]) -> bool
    requires { (k : ℕ) → k < length visits.now → get_or visits.now k 0 < 64 }
    ensures { result ≡ distinct visits.now }
{
    let mut seen = [false; 64];
    for visit in visits {
        let office = usize::from(*visit);
        if seen[office] {
            return false;
        }
        seen[office] = true;
    }
    true
}

// The first refusal of the lists, 8 to 10, of an entry that asks for no list. Depots are the locations below `depots`.
pub fn table_refusal(
    depots: usize,
    l: usize,
    visits: &[u16],
    lengths: &[u16],
) -> Result<(), Refusal>
    requires { l ≤ 64 }
    ensures { number_of result ≡ table_refusal depots l visits.now lengths.now }
{
    if !shape_ok(visits, lengths) {
        return Err(Refusal::Lists);
    }
    if !visits_ok(depots, l, visits) {
        return Err(Refusal::Visit);
    }
    if !all_distinct(visits) {
        return Err(Refusal::Repeated);
    }
    Ok(())
}

// The same of an entry that asks for a list: 8 as well where its number isn't below their count.
pub fn lists_refusal(
    depots: usize,
    l: usize,
    visits: &[u16],
    lengths: &[u16],
    asked: usize,
) -> Result<(), Refusal>
    requires { l ≤ 64 }
    ensures { number_of result ≡ lists_refusal depots l visits.now lengths.now asked }
{
    if asked >= lengths.len() {
        return Err(Refusal::Lists);
    }
    table_refusal(depots, l, visits, lengths)
}
