// Calls of put_bilin and prep_bilin.
use crate::list::{int, ints_at, sizes_at, told};
use crate::set::Set;
use blocks::bilinear::{hv_prep_bilin, hv_put_bilin};

pub(crate) fn put_bilin<P: Set>(r: &[u8], dst: &mut [P], src: &[P]) -> bool {
    let s = sizes_at(r, P::after());
    let m = ints_at(r, P::after() + 4);
    let answer = hv_put_bilin(P::depth(r), dst, s.a, src, s.b, s.c, s.d, m.a, m.b);
    told(r, answer)
}

pub(crate) fn prep_bilin<P: Set>(r: &[u8], tmp: &mut [i16], src: &[P]) -> bool {
    let s = sizes_at(r, P::after());
    let m = ints_at(r, P::after() + 4);
    let answer = hv_prep_bilin(P::depth(r), tmp, s.a, src, s.b, s.c, s.d, m.a, m.b);
    told(r, answer)
}
