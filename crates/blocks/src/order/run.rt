// The way of an order up to its kind: its tests, and its window.
ghost use Rattle.blocks.specs.inner.Order.{OrderWindow};

use crate::frame::{Reference, area_of};
use crate::order::{Order, TableLengths, check_order, kind_number, mode_of};
use crate::sample::Sample;
use crate::window::{Part, fetch, no_part};

// An order's tests, and its window in its kind's mode where none refuses: the part that the kind's rows read. dl is the length of what is written.
pub fn order_window<P: Sample>(
    deep: bool,
    named: bool,
    lent: Reference,
    plane: &[P],
    o: Order,
    t: TableLengths,
    scratch: &mut [P],
    dl: usize,
    dst_stride: usize,
) -> Part
    ensures { OrderWindow deep named lent (P.values plane.now) o t (P.values scratch.old) dl dst_stride result (P.values scratch.new) }
{
    let tested = check_order(
        deep,
        named,
        lent,
        plane.len(),
        o,
        t,
        scratch.len(),
        dl,
        dst_stride,
    );
    if let Err(why) = tested {
        return no_part(why.number());
    }
    let k = o.kind;
    let n = kind_number(k);
    let a = area_of(lent, n, o.w, o.h, o.x, o.y);
    let mode = mode_of(k);
    fetch(a, plane, lent.stride, mode, scratch)
}
