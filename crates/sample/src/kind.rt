// The kinds of run that a day has stored.
ghost use Rattle.std.specs.Prelude.{◌≡◌};
ghost use Rattle.sample.specs.Kind.{tag};

use std::fmt;

#[derive(Clone, Copy, PartialEq, Eq, Debug)]
pub enum Kind {
    Feasible,
    Eval,
    Schedule,
    Distance,
    TwoOpt,
    OrOpt,
    ThreeOpt,
    Relocate,
    RelocateWithoutPruning,
    Exchange,
    Cross,
}

impl Kind {
    // The byte that a run of the kind begins with.
    pub fn tag(self) -> u8
        ensures { result ≡ tag self }
    {
        match self {
            Kind::Feasible => 1,
            Kind::Eval => 2,
            Kind::Schedule => 3,
            Kind::Distance => 4,
            Kind::TwoOpt => 16,
            Kind::OrOpt => 17,
            Kind::ThreeOpt => 18,
            Kind::Relocate => 19,
            Kind::RelocateWithoutPruning => 20,
            Kind::Exchange => 21,
            Kind::Cross => 22,
        }
    }
}

impl fmt::Display for Kind {
    fn fmt<W: fmt::Write>(&self, f: &mut fmt::Formatter<W>) -> fmt::Result {
        f.write_str(match self {
            Kind::Feasible => "feasible",
            Kind::Eval => "eval",
            Kind::Schedule => "schedule",
            Kind::Distance => "distance",
            Kind::TwoOpt => "two_opt",
            Kind::OrOpt => "or_opt",
            Kind::ThreeOpt => "three_opt",
            Kind::Relocate => "relocate",
            Kind::RelocateWithoutPruning => "relocate_np",
            Kind::Exchange => "exchange",
            Kind::Cross => "cross",
        })
    }
}
