// Calls of blend and morph.
use crate::list::{ROOM, UNSET_PLACE, ints_at, size, sizes_at, told};
use crate::rooms::{fill, same};
use crate::set::Set;
use blocks::blend::{hv_blend, hv_morph};

// No other call has its buffers, so it fills and compares them itself.
pub(crate) fn blend<P: Set>(r: &[u8], dst: &mut [P], tmp: &mut [P]) -> bool {
    let mut mask = [0; ROOM];
    let n0 = fill(r, 0, dst);
    let n1 = fill(r, 1, tmp);
    let n2 = fill(r, 2, &mut mask);
    let mut row = UNSET_PLACE;
    let mut col = UNSET_PLACE;
    let s = sizes_at(r, 0);
    let answer = hv_blend(
        &mut dst[..n0],
        s.a,
        &tmp[..n1],
        s.b,
        s.c,
        &mask[..n2],
        &mut row,
        &mut col,
    );
    told(r, answer) & same(r, 0, dst) & (row == s.d) & (col == size(r, 4))
}

pub(crate) fn morph<P: Set>(r: &[u8], dst: &mut [P]) -> bool {
    let m = ints_at(r, P::after() + 1);
    let answer = hv_morph(
        P::depth(r),
        dst,
        size(r, P::after()),
        m.a,
        m.b,
        size(r, P::after() + 3),
        size(r, P::after() + 4),
    );
    told(r, answer)
}
