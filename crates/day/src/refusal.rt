// What document 01's table refuses. A function that may refuse answers a `Result` with one of these.
ghost use Rattle.std.specs.Prelude.{◌≡◌};
ghost use Rattle.day.specs.Number.{number};

use std::error::Error;
use std::fmt;

// One variant for each number of the table, in its order.
#[derive(Clone, Copy, PartialEq, Eq, Debug)]
pub enum Refusal {
    Size,
    Lengths,
    Tables,
    Locations,
    Windows,
    Depot,
    Van,
    Lists,
    Visit,
    Repeated,
    Fleet,
    Price,
}

impl Refusal {
    // The number in the table, 1 to 12.
    pub fn number(self) -> u8
        ensures { result ≡ number self }
    {
        match self {
            Refusal::Size => 1,
            Refusal::Lengths => 2,
            Refusal::Tables => 3,
            Refusal::Locations => 4,
            Refusal::Windows => 5,
            Refusal::Depot => 6,
            Refusal::Van => 7,
            Refusal::Lists => 8,
            Refusal::Visit => 9,
            Refusal::Repeated => 10,
            Refusal::Fleet => 11,
            Refusal::Price => 12,
        }
    }
}

impl fmt::Display for Refusal {
    fn fmt<W: fmt::Write>(&self, f: &mut fmt::Formatter<W>) -> fmt::Result {
        match self {
            Refusal::Size => write!(f, "L is 0 or over 64"),
            Refusal::Lengths => write!(f, "a table's length is wrong for L"),
            Refusal::Tables => write!(f, "a distance or time isn't plain"),
            Refusal::Locations => write!(
                f,
                "demand out of range; service, or a present penalty, not plain; flag bits 3 to 7 set; a depot flag after an unflagged location"
            ),
            Refusal::Windows => write!(
                f,
                "a present ready or due isn't plain, or ready is above due"
            ),
            Refusal::Depot => write!(f, "the van's depot isn't a depot location"),
            Refusal::Van => write!(
                f,
                "capacity, a cost, a present limit or break number out of range; latest below earliest; flag bits 3 to 7 set"
            ),
            Refusal::Lists => write!(
                f,
                "over 16 lists, lengths that don't add up to the visit table, any list longer than 63, or a list asked for by a number not below their count"
            ),
            Refusal::Visit => write!(f, "a visit not below L, or a depot"),
            Refusal::Repeated => write!(f, "an office twice, in one list or two"),
            Refusal::Fleet => write!(f, "over 16 vans, or list columns not one entry a list"),
            Refusal::Price => write!(f, "a starting price isn't plain"),
        }
    }
}

impl Error for Refusal {}
