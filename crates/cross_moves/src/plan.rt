// A plan as a search is lent it.
ghost use Rattle.std.specs.Prelude.{◌≡◌, length};

// The lists, one behind another in `visits`, the van of each by its id, and what each costs. The ghost field says that the columns have an entry a list.
#[derive(Clone, Copy)]
pub struct Plan<'a> {
    pub visits: &'a [u16],
    pub lengths: &'a [u16],
    pub ids: &'a [u32],
    pub costs: &'a [f64],
    ghost even: { (length ids.now ≡ length lengths.now) × (length costs.now ≡ length lengths.now) },
}
