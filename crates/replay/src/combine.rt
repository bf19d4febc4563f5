// Calls of avg, w_avg and mask.
use crate::list::{int, sizes_at, told};
use crate::set::Set;
use blocks::combine::{hv_avg, hv_mask, hv_w_avg};

pub(crate) fn avg<P: Set>(r: &[u8], dst: &mut [P], tmp1: &[i16], tmp2: &[i16]) -> bool {
    let s = sizes_at(r, P::after());
    let answer = hv_avg(P::depth(r), dst, s.a, tmp1, tmp2, s.b, s.c);
    told(r, answer)
}

pub(crate) fn w_avg<P: Set>(r: &[u8], dst: &mut [P], tmp1: &[i16], tmp2: &[i16]) -> bool {
    let s = sizes_at(r, P::after());
    let answer = hv_w_avg(
        P::depth(r),
        dst,
        s.a,
        tmp1,
        tmp2,
        s.b,
        s.c,
        int(r, P::after() + 3),
    );
    told(r, answer)
}

pub(crate) fn mask<P: Set>(
    r: &[u8],
    dst: &mut [P],
    tmp1: &[i16],
    tmp2: &[i16],
    mask: &[u8],
) -> bool {
    let s = sizes_at(r, P::after());
    let answer = hv_mask(P::depth(r), dst, s.a, tmp1, tmp2, s.b, s.c, mask);
    told(r, answer)
}
