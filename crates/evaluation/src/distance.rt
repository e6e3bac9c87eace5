// `route_distance` of local_search/or_opt.rs: the first leg, then each leg added, then the return.
ghost use Rattle.std.specs.Prelude.{◌≡◌, ◌<◌};
ghost use Rattle.labels.specs.Columns.{Visits};
ghost use Rattle.evaluation.specs.Distance.{route_distance};

use day::matrix::Matrix;

// The distance of a list, depot to depot; 0 where it is empty.
pub fn route_distance(distances: &Matrix, depot: usize, list: &[u16]) -> f64
    requires { (depot < distances.now.size) × Visits distances.now.size list.now }
    ensures { result ≡ route_distance distances.now.size distances.now.entries.now depot list.now }
{
    let [first, others @ ..] = list else {
        return 0.0;
    };
    let mut place = usize::from(*first);
    let mut distance = distances.get(depot, place);
    for visit in others {
        let visit = usize::from(*visit);
        distance = distance + distances.get(place, visit);
        place = visit;
    }
    distance + distances.get(place, depot)
}
