// A visit of one list offered to another, at its places one after another: of equal deltas the first place is taken.
ghost use Rattle.std.specs.Prelude.{◌≡◌, Bool, true};
ghost use Rattle.std.specs.Float.Ieee.{lt};
ghost use Rattle.numbers.specs.Operations.{◌⊕◌};
ghost use Rattle.relocations.specs.Offers.{better};

use pairs::Choice;

// The visit at `position` of list `from`, offered to list `to`; `removal` is what taking it out changes.
#[derive(Clone, Copy)]
pub struct Offer {
    pub from: usize,
    pub position: usize,
    pub to: usize,
    pub visit: u16,
    pub removal: f64,
}

// The better of the best so far and an offer at a place, where putting the visit in changes so much. Whether the list passes is asked only where the delta is
// below the best so far.
pub fn better_of<F: FnOnce() -> bool>(
    offer: Offer,
    insertion: f64,
    passes: F,
    best: Choice,
    place: usize,
) -> Choice
    requires { F.IsAlwaysCallable passes }
    ensures { (passed : Bool) × (lt (offer.removal ⊕ insertion) best.delta ≡ true → F.post passes passed)
        × (result ≡ better offer insertion passed best place) }
{
    let delta = offer.removal + insertion;
    if delta < best.delta {
        if passes() {
            return Choice {
                found: 1,
                from: offer.from,
                position: offer.position,
                to: offer.to,
                place,
                delta,
            };
        }
    }
    best
}
