// Calls of put_8tap and prep_8tap.
use crate::list::{int, ints_at, size, sizes_at, told};
use crate::set::Set;
use blocks::subpel::{hv_prep_8tap, hv_put_8tap};

pub(crate) fn put_8tap<P: Set>(
    r: &[u8],
    dst: &mut [P],
    src: &[P],
    subpel: &[i8],
    ext: &[i8],
) -> bool {
    let s = sizes_at(r, P::after());
    let m = ints_at(r, P::after() + 5);
    let answer = hv_put_8tap(
        P::depth(r),
        dst,
        s.a,
        src,
        s.b,
        s.c,
        s.d,
        size(r, P::after() + 4),
        m.a,
        m.b,
        m.c,
        subpel,
        ext,
    );
    told(r, answer)
}

pub(crate) fn prep_8tap<P: Set>(
    r: &[u8],
    tmp: &mut [i16],
    src: &[P],
    subpel: &[i8],
    ext: &[i8],
) -> bool {
    let s = sizes_at(r, P::after());
    let m = ints_at(r, P::after() + 5);
    let answer = hv_prep_8tap(
        P::depth(r),
        tmp,
        s.a,
        src,
        s.b,
        s.c,
        s.d,
        size(r, P::after() + 4),
        m.a,
        m.b,
        m.c,
        subpel,
        ext,
    );
    told(r, answer)
}
