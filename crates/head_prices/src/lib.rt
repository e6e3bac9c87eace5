// What a list costs whose head is driven: the visits behind the head are driven from its end on. The Rust drives every list whole; the price is the same.

#![tactic(auto)]

ghost use Rattle.std.specs.Prelude.{◌≡◌, ◌<◌};
ghost use Rattle.labels.specs.Columns.{Visits};
ghost use Rattle.labels.specs.Lent.{lent};
ghost use Rattle.head_prices.specs.Prices.{price_from};

use day::vehicle::RouteLimits;
use evaluation::drive::Drive;
use evaluation::route::{effective_cost, price};
use heads::Head;
use labels::columns::Columns;

// What a list costs, the visits behind its head given. Compiled into the searches: called, it takes tail exchange 1.3 times the instructions.
#[inline(always)]
pub fn price_from(
    columns: &Columns,
    limits: RouteLimits,
    depot: usize,
    head: Head,
    others: &[u16],
) -> f64
    requires { (depot < columns.now.locations) × (head.place < columns.now.locations) × Visits columns.now.locations others.now }
    ensures { result ≡ price_from (lent columns.now) limits depot head others.now }
{
    let rest = limits.rest;
    // A head has no break, so that the two cases have nothing in common but the price.
    match rest {
        None => {
            let drive = Drive {
                distance: head.distance,
                label: head.label,
                place: head.place,
            };
            let driven = drive.home(columns, depot, others);
            price(limits, driven)
        }
        Some(_) => effective_cost(columns, limits, depot, others),
    }
}
