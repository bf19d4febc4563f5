// Calls of w_mask.
use crate::list::{flag, int, sizes_at, told};
use crate::set::Set;
use blocks::w_mask::hv_w_mask;

pub(crate) fn w_mask<P: Set>(
    r: &[u8],
    dst: &mut [P],
    tmp1: &[i16],
    tmp2: &[i16],
    mask: &mut [u8],
) -> bool {
    let s = sizes_at(r, P::after());
    let answer = hv_w_mask(
        P::depth(r),
        dst,
        s.a,
        tmp1,
        tmp2,
        s.b,
        s.c,
        mask,
        s.d,
        int(r, P::after() + 4),
        flag(r, P::after() + 5),
        flag(r, P::after() + 6),
    );
    told(r, answer)
}
