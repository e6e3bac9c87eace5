// The edits of one list of visits, in place.
//
// Each function's contract equates its slice at exit with the edit of specs/Edits.antt at entry. Every edit is made of reversals, so
// it needs no second list, and each visit is moved twice at most.

#![tactic(auto)]

ghost use Rattle.std.specs.Prelude.{◌≡◌, ◌⊎◌, ◌+◌, ◌<◌, ◌≤◌, length};
ghost use Rattle.edits.specs.Edits.{reversed, exchanged, put_before, outer_exchanged};

// A visit as a number.
pub fn wide(v: u16) -> usize
    ensures { result ≡ v }
{
    v as usize
}

// Reverses the visits from place `from` up to, not including, place `to`.
pub fn reverse(list: &mut [u16], from: usize, to: usize)
    requires from_le_to { from ≤ to }
    requires to_in_bounds { to ≤ length list.old }
    ensures { list.new ≡ reversed from to list.old }
{
    list[from..to].reverse();
}

// Exchanges the stretches from..a and b..to round the stretch a..b: each of the three is reversed, and then all
// together, which puts them in the opposite order, each as it was.
pub fn exchange_outer(list: &mut [u16], from: usize, a: usize, b: usize, to: usize)
    requires from_le_a { (from ≤ a) × (a ≤ b) × (b ≤ to) }
    requires to_in_bounds { to ≤ length list.old }
    ensures { list.new ≡ outer_exchanged from a b to list.old }
{
    reverse(list, from, a);
    reverse(list, a, b);
    reverse(list, b, to);
    reverse(list, from, to);
}

// Exchanges the neighbouring stretches from..middle and middle..to: outer stretches with nothing between them. The library's
// `rotate_left` takes 4,096 bytes of stack and calls memmove, which is not among the functions that a caller of the C library gives.
pub fn exchange_stretches(list: &mut [u16], from: usize, middle: usize, to: usize)
    requires from_le_middle { (from ≤ middle) × (middle ≤ to) }
    requires to_in_bounds { to ≤ length list.old }
    ensures { list.new ≡ exchanged from middle to list.old }
{
    exchange_outer(list, from, middle, middle, to);
}

// Or-opt's move: the piece of `size` visits at `from` goes before the visit at place `to` of the original list, which is not in it.
// The piece and what lies between it and that place are neighbours.
pub fn move_piece(list: &mut [u16], from: usize, size: usize, to: usize)
    requires size_in_bounds { from + size ≤ length list.old }
    requires to_in_bounds { to ≤ length list.old }
    requires fact { (to < from) ⊎ (from + size ≤ to) }
    ensures { list.new ≡ put_before from size to list.old }
{
    let behind = from + size;
    if to < from {
        exchange_stretches(list, to, from, behind);
        return;
    }
    exchange_stretches(list, from, behind, to);
}
