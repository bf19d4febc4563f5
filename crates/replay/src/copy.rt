// Calls of put and prep.
use crate::list::{int, sizes_at, told};
use crate::set::Set;
use blocks::copy::{hv_prep, hv_put};

pub(crate) fn put<P: Set>(r: &[u8], dst: &mut [P], src: &[P]) -> bool {
    let s = sizes_at(r, 0);
    told(r, hv_put(dst, s.a, src, s.b, s.c, s.d))
}

pub(crate) fn prep<P: Set>(r: &[u8], tmp: &mut [i16], src: &[P]) -> bool {
    let s = sizes_at(r, P::after());
    let answer = hv_prep(P::depth(r), tmp, s.a, src, s.b, s.c, s.d);
    told(r, answer)
}
