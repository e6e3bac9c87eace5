// Ports parts of local_search/three_opt.rs: a list cut behind three of its visits, with the pieces B and C between the cuts put back in one of the
// seven ways: built in a buffer, or in place of the list. It is a layout of the list (layouts), as every neighbour of the soft search is.

#![tactic(auto)]

ghost use Rattle.std.specs.Prelude.{◌≡◌, ◌≤◌, length, take};
ghost use Rattle.descent.specs.Within.{reconnect};
ghost use Rattle.reconnections.specs.Reconnections.{Inside, reconnection};

use layouts::{Way, lay_out, rearrange, reconnection};

// The list is cut behind its visits i, j and k.
#[derive(Clone, Copy)]
pub struct Place {
    pub i: usize,
    pub j: usize,
    pub k: usize,
}

// Builds the list as a way has it, at the front of the buffer.
pub fn reconnected_into(buffer: &mut [u16], list: &[u16], place: Place, way: Way) -> usize
    requires inside { Inside (length list.now) place }
    requires list_in_bounds { length list.now ≤ length buffer.old }
    ensures value { result ≡ length list.now }
    ensures buffer_after { take result buffer.new ≡ reconnect list.now (reconnection place way) }
{
    let p = reconnection(place.i, place.j, place.k, way);
    lay_out(buffer, list, p, 0);
    list.len()
}

// Makes a move: the list is built in the buffer and copied back.
pub fn make_move(list: &mut [u16], buffer: &mut [u16], place: Place, way: Way)
    requires inside { Inside (length list.old) place }
    requires list_in_bounds { length list.old ≤ length buffer.old }
    ensures { list.new ≡ reconnect list.old (reconnection place way) }
{
    let p = reconnection(place.i, place.j, place.k, way);
    rearrange(list, buffer, p);
}
