// What the flags of all locations tell: the depots that lead the table, and whether there are windows, or soft ones.
ghost use Rattle.std.specs.Prelude.{◌≡◌};
ghost use Rattle.day.specs.Customer.{leading, num_depots, has_time_windows, has_soft_windows, is_soft};

use day::flags::{flag0, flag1, flag2};

// How many flagged locations lead the table.
fn leading_flagged(flags: &[u8]) -> usize
    ensures { result ≡ leading flags.now }
{
    flags.iter().take_while(|f| flag0(**f)).count()
}

// The number of depots: the leading flagged locations, at least one.
pub fn num_depots(flags: &[u8]) -> usize
    ensures { result ≡ num_depots flags.now }
{
    let count = leading_flagged(flags);
    if count == 0 {
        return 1;
    }
    count
}

// Whether a location has a window.
pub fn has_time_windows(flags: &[u8]) -> bool
    ensures { result ≡ has_time_windows flags.now }
{
    flags.iter().any(|f| flag1(*f))
}

// Whether a flags byte is that of a location with a soft window.
fn is_soft(f: u8) -> bool
    ensures { result ≡ is_soft f }
{
    flag1(f) && flag2(f)
}

// Whether a location has a soft window.
pub fn has_soft_windows(flags: &[u8]) -> bool
    ensures { result ≡ has_soft_windows flags.now }
{
    flags.iter().any(|f| is_soft(*f))
}
