// models/customer.rs: the window of a location, as document 01 decides it.
ghost use Rattle.std.specs.Prelude.{◌≡◌, ◌<◌, length};
ghost use Rattle.day.specs.Customer.{is_violated, waiting_time, lateness_at, window_at};

use crate::flags::{flag1, flag2};

// From when to when a location is served.
#[derive(Clone, Copy)]
pub struct TimeWindow {
    pub ready: f64,
    pub due: f64,
}

impl TimeWindow {
    // Whether an arrival is late.
    pub fn is_violated(self, arrival: f64) -> bool
        ensures { result ≡ is_violated self arrival }
    {
        arrival > self.due
    }

    // How long the van waits for the window to open.
    pub fn waiting_time(self, arrival: f64) -> f64
        ensures { result ≡ waiting_time self arrival }
    {
        if arrival < self.ready {
            return self.ready - arrival;
        }
        0.0
    }

    // How late an arrival is.
    pub fn lateness(self, arrival: f64) -> f64
        ensures { result ≡ lateness_at self arrival }
    {
        if arrival > self.due {
            return arrival - self.due;
        }
        0.0
    }
}

// The window of a location.
#[derive(Clone, Copy)]
pub enum Window {
    // It is served at any time.
    Open,
    // A late arrival fails.
    Hard(TimeWindow),
    // A late arrival costs the penalty for each unit of time.
    Soft(TimeWindow, f64),
}

// The window of location k. A column is read only where its flag is on.
pub fn time_window(flags: &[u8], ready: &[f64], due: &[f64], penalty: &[f64], k: usize) -> Window
    requires { (k < length flags.now) × (k < length ready.now) × (k < length due.now) × (k < length penalty.now) }
    ensures { result ≡ window_at flags.now ready.now due.now penalty.now k }
{
    let f = flags[k];
    if !flag1(f) {
        return Window::Open;
    }
    let window = TimeWindow {
        ready: ready[k],
        due: due[k],
    };
    if flag2(f) {
        return Window::Soft(window, penalty[k]);
    }
    Window::Hard(window)
}
