// Calls of the four kernels on a reference of another size.
use crate::list::{int, ints_at, size, sizes_at, told};
use crate::set::Set;
use blocks::scaled::kernels::{
    hv_prep_8tap_scaled, hv_prep_bilin_scaled, hv_put_8tap_scaled, hv_put_bilin_scaled,
};

pub(crate) fn put_8tap_scaled<P: Set>(r: &[u8], dst: &mut [P], src: &[P], subpel: &[i8]) -> bool {
    let s = sizes_at(r, P::after());
    let m = ints_at(r, P::after() + 5);
    let answer = hv_put_8tap_scaled(
        P::depth(r),
        dst,
        s.a,
        src,
        s.b,
        s.c,
        s.d,
        size(r, P::after() + 4),
        m.a,
        m.b,
        m.c,
        int(r, P::after() + 8),
        int(r, P::after() + 9),
        subpel,
    );
    told(r, answer)
}

pub(crate) fn prep_8tap_scaled<P: Set>(
    r: &[u8],
    tmp: &mut [i16],
    src: &[P],
    subpel: &[i8],
) -> bool {
    let s = sizes_at(r, P::after());
    let m = ints_at(r, P::after() + 5);
    let answer = hv_prep_8tap_scaled(
        P::depth(r),
        tmp,
        s.a,
        src,
        s.b,
        s.c,
        s.d,
        size(r, P::after() + 4),
        m.a,
        m.b,
        m.c,
        int(r, P::after() + 8),
        int(r, P::after() + 9),
        subpel,
    );
    told(r, answer)
}

pub(crate) fn put_bilin_scaled<P: Set>(r: &[u8], dst: &mut [P], src: &[P]) -> bool {
    let s = sizes_at(r, P::after());
    let m = ints_at(r, P::after() + 5);
    let answer = hv_put_bilin_scaled(
        P::depth(r),
        dst,
        s.a,
        src,
        s.b,
        s.c,
        s.d,
        size(r, P::after() + 4),
        m.a,
        m.b,
        m.c,
        int(r, P::after() + 8),
    );
    told(r, answer)
}

pub(crate) fn prep_bilin_scaled<P: Set>(r: &[u8], tmp: &mut [i16], src: &[P]) -> bool {
    let s = sizes_at(r, P::after());
    let m = ints_at(r, P::after() + 5);
    let answer = hv_prep_bilin_scaled(
        P::depth(r),
        tmp,
        s.a,
        src,
        s.b,
        s.c,
        s.d,
        size(r, P::after() + 4),
        m.a,
        m.b,
        m.c,
        int(r, P::after() + 8),
    );
    told(r, answer)
}
