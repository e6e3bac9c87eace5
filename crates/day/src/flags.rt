// The bits of a location's or a van's flags.
ghost use Rattle.std.specs.Prelude.{◌≡◌};
ghost use Rattle.day.specs.Day.{bit0, bit1, bit2};

pub fn flag0(f: u8) -> bool
    ensures { result ≡ bit0 f }
{
    f % 2 == 1
}

pub fn flag1(f: u8) -> bool
    ensures { result ≡ bit1 f }
{
    f / 2 % 2 == 1
}

pub fn flag2(f: u8) -> bool
    ensures { result ≡ bit2 f }
{
    f / 4 % 2 == 1
}
