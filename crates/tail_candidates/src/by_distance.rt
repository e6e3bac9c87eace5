// An exchange judged where no window is soft: by the change in distance, and by whether both new lists pass.
ghost use Rattle.std.specs.Prelude.{◌≡◌, ◌<◌, ◌≤◌, length};
ghost use Rattle.list_changes.specs.Edits.{joined};
ghost use Rattle.engine.specs.Engine.{passing};
ghost use Rattle.loads.specs.Loads.{Two};
ghost use Rattle.tail_candidates.specs.Candidate.{Asked, delta_by, pass_by, both_have_room};
ghost use Rattle.labels.specs.Lent.{lent};

use crate::{TailPair, Terms, TwoLists, join};
use deltas_across::exchange_delta;
use engine::passes;
use labels::columns::Columns;

#[derive(Clone, Copy)]
pub struct ByDistance<'a> {
    pub two: &'a TwoLists<'a>,
    ghost asked: { Asked (lent two.now.columns.now) two.now.demand.now two.now.terms },
}

// Whether the first `cut1` visits of a list with another's tail behind them pass. Where no check is needed they do, and the list is not built.
fn joined_passes(
    columns: &Columns,
    terms: &Terms,
    one: &[u16],
    cut1: usize,
    other: &[u16],
    cut2: usize,
) -> bool
    requires depot_lt_l { (terms.now.depot < columns.now.locations) }
    requires two { Two columns.now.locations one.now other.now }
    requires cut1_in_bounds { (cut1 ≤ length one.now) × (cut2 ≤ length other.now) }
    ensures { result ≡ passing terms.now.needed (lent columns.now) terms.now.limits terms.now.depot (joined one.now cut1 other.now cut2) }
{
    if !terms.needed {
        return true;
    }
    let mut buffer = [0u16; 64];
    let end = join(&mut buffer, one, cut1, other, cut2);
    passes(true, columns, terms.limits, terms.depot, &buffer[..end])
}

impl<'a> TailPair for ByDistance<'a> {
    ghost two = { λ p. p.two.now };

    ghost delta = { λ p. let two = p.two.now in
        delta_by (lent two.columns.now) two.demand.now two.terms two.one.now two.other.now };

    ghost passes = { λ p. let two = p.two.now in
        pass_by (lent two.columns.now) two.demand.now two.terms two.one.now two.other.now };

    fn delta(&self, cut1: usize, cut2: usize) -> f64 {
        let two = self.two;
        exchange_delta(
            &two.columns.matrix(),
            two.terms.depot,
            two.one,
            two.other,
            cut1,
            cut2,
        )
    }

    fn passes(&self, cut1: usize, cut2: usize) -> bool {
        let two = self.two;
        if !joined_passes(two.columns, &two.terms, two.one, cut1, two.other, cut2) {
            return false;
        }
        // The second list: its own head, and the first one's tail.
        joined_passes(two.columns, &two.terms, two.other, cut2, two.one, cut1)
    }

    fn reach_one(&mut self, cut1: usize) {}

    fn reach_other(&mut self, cut2: usize) {}

    ghost has_room = { λ p cut1 cut2 e. let two = p.two.now in
        let room = both_have_room (lent two.columns.now) two.demand.now two.terms two.one.now two.other.now cut1 cut2 e in
        record { one = room.0; other = room.1 } };
}
