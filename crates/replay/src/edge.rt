// Calls of emu_edge.
use crate::list::{size, sizes_at, told, wide};
use crate::set::Set;
use blocks::edge::hv_emu_edge;

pub(crate) fn emu_edge<P: Set>(r: &[u8], dst: &mut [P], plane: &[P]) -> bool {
    let s = sizes_at(r, 0);
    let answer = hv_emu_edge(
        s.a,
        s.b,
        s.c,
        s.d,
        wide(r, 4),
        wide(r, 5),
        dst,
        size(r, 6),
        plane,
        size(r, 7),
    );
    told(r, answer)
}
