// Calls of sad_nxn and sad_refine_mv.
use crate::list::{UNSET, flag, int, ints_at, sizes_at, told};
use crate::set::Set;
use blocks::search::{hv_sad_nxn, hv_sad_refine_mv};

pub(crate) fn sad_nxn<P: Set>(r: &[u8], p0: &[P], p1: &[P]) -> bool {
    let mut sum = UNSET;
    let s = sizes_at(r, P::after());
    let answer = hv_sad_nxn(P::depth(r), p0, s.a, p1, s.b, s.c, s.d, &mut sum);
    told(r, answer) & (sum == int(r, P::after() + 4))
}

pub(crate) fn sad_refine_mv<P: Set>(r: &[u8], p0: &[P], p1: &[P]) -> bool {
    let mut dx = UNSET;
    let mut dy = UNSET;
    let s = sizes_at(r, P::after());
    let answer = hv_sad_refine_mv(
        P::depth(r),
        p0,
        s.a,
        p1,
        s.b,
        s.c,
        s.d,
        flag(r, P::after() + 4),
        &mut dx,
        &mut dy,
    );
    let due = ints_at(r, P::after() + 5);
    told(r, answer) & (dx == due.a) & (dy == due.b)
}
