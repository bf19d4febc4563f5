// Calls of warp_affine_8x8 and warp_affine_8x8t.
use crate::list::{int, ints_at, shorts_at, sizes_at, told};
use crate::set::Set;
use blocks::warp::{hv_warp_affine_8x8, hv_warp_affine_8x8t};

pub(crate) fn warp_affine_8x8<P: Set>(r: &[u8], dst: &mut [P], src: &[P], filters: &[i8]) -> bool {
    let s = sizes_at(r, P::after());
    let shears = shorts_at(r, P::after() + 3);
    let m = ints_at(r, P::after() + 7);
    let answer = hv_warp_affine_8x8(
        P::depth(r),
        dst,
        s.a,
        src,
        s.b,
        s.c,
        shears.a,
        shears.b,
        shears.c,
        shears.d,
        m.a,
        m.b,
        filters,
    );
    told(r, answer)
}

pub(crate) fn warp_affine_8x8t<P: Set>(
    r: &[u8],
    tmp: &mut [i16],
    src: &[P],
    filters: &[i8],
) -> bool {
    let s = sizes_at(r, P::after());
    let shears = shorts_at(r, P::after() + 3);
    let m = ints_at(r, P::after() + 7);
    let answer = hv_warp_affine_8x8t(
        P::depth(r),
        tmp,
        s.a,
        src,
        s.b,
        s.c,
        shears.a,
        shears.b,
        shears.c,
        shears.d,
        m.a,
        m.b,
        filters,
    );
    told(r, answer)
}
