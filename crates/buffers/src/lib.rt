// A list of visits built in a lent buffer, piece by piece. Each function's contract is `Appended` of edits/specs/Edits.antt.

#![tactic(auto)]

ghost use Rattle.std.specs.Prelude.{◌≡◌, [], ◌∷◌, reverse, ◌+◌, ◌-◌, ◌<◌, ◌≤◌, length};
ghost use Rattle.std.proofs.Math.Seq.{slice};
ghost use Rattle.edits.specs.Edits.{Appended};

// Appends `part` to the first `count` visits of the buffer, and returns how many are in use now.
pub fn append(buffer: &mut [u16], count: usize, part: &[u16]) -> usize
    requires { count + length part.now ≤ length buffer.old }
    ensures { Appended count part.now buffer.old result buffer.new }
{
    // A loop: `copy_from_slice` would want memmove from outside, where the library wants memcpy and memset alone.
    for i in 0..part.len() {
        buffer[count + i] = part[i];
    }
    count + part.len()
}

// Appends `part` in the opposite order.
pub fn append_reversed(buffer: &mut [u16], count: usize, part: &[u16]) -> usize
    requires { count + length part.now ≤ length buffer.old }
    ensures { Appended count (reverse part.now) buffer.old result buffer.new }
{
    // To append the part and then reverse it in the buffer takes 10 to 12 ns at 8 to 17 visits, and this loop 7.
    for i in 0..part.len() {
        buffer[count + i] = part[part.len() - 1 - i];
    }
    count + part.len()
}

// Appends the visits of `list` from place `from` up to, not including, place `to`.
pub fn append_stretch(
    buffer: &mut [u16],
    count: usize,
    list: &[u16],
    from: usize,
    to: usize,
) -> usize
    requires from_le_to { (from ≤ to) × (to ≤ length list.now) }
    requires from_in_bounds { count + (to - from) ≤ length buffer.old }
    ensures value { result ≡ count + (to - from) }
    ensures appended { Appended count (slice from to list.now) buffer.old result buffer.new }
{
    append(buffer, count, &list[from..to])
}

// Appends the same visits in the opposite order.
pub fn append_stretch_reversed(
    buffer: &mut [u16],
    count: usize,
    list: &[u16],
    from: usize,
    to: usize,
) -> usize
    requires from_le_to { (from ≤ to) × (to ≤ length list.now) }
    requires from_in_bounds { count + (to - from) ≤ length buffer.old }
    ensures value { result ≡ count + (to - from) }
    ensures appended { Appended count (reverse (slice from to list.now)) buffer.old result buffer.new }
{
    append_reversed(buffer, count, &list[from..to])
}

// Appends one visit.
pub fn append_one(buffer: &mut [u16], count: usize, visit: u16) -> usize
    requires { count < length buffer.old }
    ensures { Appended count (visit ∷ []) buffer.old result buffer.new }
{
    buffer[count] = visit;
    count + 1
}
