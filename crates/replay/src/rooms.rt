// Buffers, filled from a record and compared with it: pixels, intermediates and taps.
ghost use Rattle.std.specs.Prelude.{◌≤◌, ◌≡◌, length};

use crate::list::{ROOM, Value, came, layout_of, left, mid, places, tap, value8, value16};

// What stands in a buffer's places, as the list writes it.
pub(crate) trait Listed: Copy + PartialEq {
    fn value(r: &[u8], v: Value) -> Self;
}

impl Listed for u8 {
    fn value(r: &[u8], v: Value) -> u8 {
        value8(r, v)
    }
}

impl Listed for u16 {
    fn value(r: &[u8], v: Value) -> u16 {
        value16(r, v)
    }
}

impl Listed for i16 {
    fn value(r: &[u8], v: Value) -> i16 {
        mid(r, v)
    }
}

impl Listed for i8 {
    fn value(r: &[u8], v: Value) -> i8 {
        tap(r, v)
    }
}

// Fills the first places of a room with what buffer b comes with, and answers how many. A function of its own, so that many places of one value are filled
// some at a time.
#[inline(never)]
pub(crate) fn fill<T: Listed>(r: &[u8], b: u8, room: &mut [T]) -> usize
    ensures { (result ≤ length room.new) × (length room.new ≡ length room.old) }
{
    let c = layout_of(r, b);
    let n = places(c, room.len());
    for i in 0..n {
        room[i as usize] = T::value(r, came(c, i));
    }
    n as usize
}

// Whether the room has each place of buffer b, left as the record says. It looks at all, so that many places of one value are compared some at a time.
pub(crate) fn same<T: Listed>(r: &[u8], b: u8, room: &[T]) -> bool {
    let c = layout_of(r, b);
    let n = places(c, ROOM);
    let mut same = n as usize <= room.len();
    for (i, v) in (0..n).zip(room) {
        same = same & (*v == T::value(r, left(c, i)));
    }
    same
}
