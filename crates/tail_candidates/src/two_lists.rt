// Two lists whose tails may change places, on a day and with a van's terms.
ghost use Rattle.std.specs.Prelude.{◌<◌};
ghost use Rattle.loads.specs.Loads.{Two};

use crate::Terms;
use labels::columns::Columns;

#[derive(Clone, Copy)]
pub struct TwoLists<'a> {
    pub columns: &'a Columns<'a>,
    pub demand: &'a [i32],
    pub terms: Terms,
    pub one: &'a [u16],
    pub other: &'a [u16],
    ghost depot_there: { terms.depot < columns.now.locations },
    ghost visits: { Two columns.now.locations one.now other.now },
}
