// What a tail exchange changes where a day has a soft window (local_search/exchange.rs, the `soft` branches). An exchange that shortens two lists can make
// a van late, so that it is judged by the whole of both new lists: distance plus lateness cost. Each is priced from the head that it keeps, where that was
// driven up to the cut (`heads`).

#![tactic(auto)]

ghost use Rattle.std.specs.Prelude.{◌≡◌, ◌<◌, ◌≤◌, length};
ghost use Rattle.numbers.specs.Operations.{◌⊕◌, ◌⊖◌};
ghost use Rattle.list_changes.specs.Edits.{joined};
ghost use Rattle.evaluation.specs.Route.{effective_cost};
ghost use Rattle.loads.specs.Loads.{Two};
ghost use Rattle.tail_candidates.specs.TwoLists.{Within};
ghost use Rattle.tail_prices.specs.Changes.{DrivenBy, Priced, change_of};
ghost use Rattle.labels.specs.Lent.{lent};

use evaluation::route::effective_cost;
use head_prices::price_from;
use heads::Head;
use labels::columns::Columns;
use tail_candidates::{Terms, TwoLists, join};

// What a list loads and costs as it is.
#[derive(Clone, Copy)]
pub struct Figure {
    pub load: usize,
    pub cost: f64,
}

// So of two lists.
#[derive(Clone, Copy)]
pub struct Figures {
    pub one: Figure,
    pub other: Figure,
}

// What the first `cut1` visits of a list cost with another's tail behind them, driven whole.
fn joined_cost(
    columns: &Columns,
    terms: &Terms,
    one: &[u16],
    cut1: usize,
    other: &[u16],
    cut2: usize,
) -> f64
    requires depot_lt_l { (terms.now.depot < columns.now.locations) }
    requires two { Two columns.now.locations one.now other.now }
    requires cut1_in_bounds { (cut1 ≤ length one.now) × (cut2 ≤ length other.now) }
    ensures { result ≡ effective_cost (lent columns.now) terms.now.limits terms.now.depot (joined one.now cut1 other.now cut2) }
{
    let mut buffer = [0u16; 64];
    let end = join(&mut buffer, one, cut1, other, cut2);
    effective_cost(columns, terms.limits, terms.depot, &buffer[..end])
}

// Minus what the two lists cost as they are.
fn change_by(figures: Figures, new1: f64, new2: f64) -> f64
    ensures { result ≡ new1 ⊕ new2 ⊖ figures.one.cost ⊖ figures.other.cost }
{
    new1 + new2 - figures.one.cost - figures.other.cost
}

// What an exchange changes, both new lists driven whole.
fn change_whole(two: &TwoLists, figures: Figures, cut1: usize, cut2: usize) -> f64
    requires within { Within two.now cut1 cut2 }
    requires priced { Priced two.now figures }
    ensures { result ≡ change_of two.now cut1 cut2 }
{
    let new1 = joined_cost(two.columns, &two.terms, two.one, cut1, two.other, cut2);
    // The second list: its own head, and the first one's tail.
    let new2 = joined_cost(two.columns, &two.terms, two.other, cut2, two.one, cut1);
    change_by(figures, new1, new2)
}

// What an exchange changes, each new list driven from the end of the head that it keeps.
fn change_behind(
    two: &TwoLists,
    figures: Figures,
    cut1: usize,
    cut2: usize,
    driven1: Head,
    driven2: Head,
) -> f64
    requires within { Within two.now cut1 cut2 }
    requires priced { Priced two.now figures }
    requires driven1 { DrivenBy two.now two.now.one.now driven1 × (driven1.visits ≡ cut1) }
    requires driven2 { DrivenBy two.now two.now.other.now driven2 × (driven2.visits ≡ cut2) }
    ensures { result ≡ change_of two.now cut1 cut2 }
{
    let limits = two.terms.limits;
    let depot = two.terms.depot;
    let new1 = price_from(two.columns, limits, depot, driven1, &two.other[cut2..]);
    let new2 = price_from(two.columns, limits, depot, driven2, &two.one[cut1..]);
    change_by(figures, new1, new2)
}

// What an exchange changes. With a break, or where a visit can't be served, a head ends before its cut.
pub fn change_of(
    two: &TwoLists,
    figures: Figures,
    cut1: usize,
    cut2: usize,
    driven1: Head,
    driven2: Head,
) -> f64
    requires within { Within two.now cut1 cut2 }
    requires priced { Priced two.now figures }
    requires driven1 { DrivenBy two.now two.now.one.now driven1 }
    requires driven2 { DrivenBy two.now two.now.other.now driven2 }
    ensures { result ≡ change_of two.now cut1 cut2 }
{
    if driven1.visits != cut1 || driven2.visits != cut2 {
        return change_whole(two, figures, cut1, cut2);
    }
    change_behind(two, figures, cut1, cut2, driven1, driven2)
}
