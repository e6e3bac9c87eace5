// What the columns say of one visit, read once: each value only under the flag that says it is there.
ghost use Rattle.std.specs.Prelude.{◌≡◌, ◌<◌, length};
ghost use Rattle.labels.specs.Columns.{stop_of};

use day::customer::{Window, time_window};

// A visit, as a clock needs it.
#[derive(Clone, Copy)]
pub struct Stop {
    pub service: f64,
    pub window: Window,
}

// The stop at location k.
pub fn stop_of(
    flags: &[u8],
    service: &[f64],
    ready: &[f64],
    due: &[f64],
    penalty: &[f64],
    k: usize,
) -> Stop
    requires { (k < length flags.now) × (k < length service.now) × (k < length ready.now) × (k < length due.now) × (k < length penalty.now) }
    ensures { result ≡ stop_of flags.now service.now ready.now due.now penalty.now k }
{
    Stop {
        service: service[k],
        window: time_window(flags, ready, due, penalty, k),
    }
}
