// The kernels of a set. Those whose buffers are of the same kinds share what fills and compares them; a buffer that a call hasn't is empty.
use crate::called::{Combined, Mids, Pixels};
use crate::list::ROOM;
use crate::rooms::{fill, same};
use crate::set::Set;
use crate::{bilinear, blend, combine, copy, edge, mask, scaled, search, subpel, warp};

fn to_pixels<P: Set>(
    k: Pixels,
    r: &[u8],
    dst: &mut [P],
    src: &[P],
    taps: &[i8],
    ext: &[i8],
) -> bool {
    match k {
        Pixels::Put => copy::put(r, dst, src),
        Pixels::Morph => blend::morph(r, dst),
        Pixels::EmuEdge => edge::emu_edge(r, dst, src),
        Pixels::Put8tap => subpel::put_8tap(r, dst, src, taps, ext),
        Pixels::PutBilin => bilinear::put_bilin(r, dst, src),
        Pixels::SadNxn => search::sad_nxn(r, dst, src),
        Pixels::SadRefineMv => search::sad_refine_mv(r, dst, src),
        Pixels::WarpAffine8x8 => warp::warp_affine_8x8(r, dst, src, taps),
        Pixels::Put8tapScaled => scaled::put_8tap_scaled(r, dst, src, taps),
        Pixels::PutBilinScaled => scaled::put_bilin_scaled(r, dst, src),
    }
}

pub(crate) fn pixels<P: Set>(k: Pixels, r: &[u8], dst: &mut [P], src: &mut [P]) -> bool {
    let mut taps = [0; ROOM];
    let mut ext = [0; ROOM];
    let n0 = fill(r, 0, dst);
    let n1 = fill(r, 1, src);
    let n2 = fill(r, 2, &mut taps);
    let n3 = fill(r, 3, &mut ext);
    to_pixels(k, r, &mut dst[..n0], &src[..n1], &taps[..n2], &ext[..n3]) & same(r, 0, dst)
}

fn to_mids<P: Set>(k: Mids, r: &[u8], tmp: &mut [i16], src: &[P], taps: &[i8], ext: &[i8]) -> bool {
    match k {
        Mids::Prep => copy::prep(r, tmp, src),
        Mids::Prep8tap => subpel::prep_8tap(r, tmp, src, taps, ext),
        Mids::PrepBilin => bilinear::prep_bilin(r, tmp, src),
        Mids::WarpAffine8x8t => warp::warp_affine_8x8t(r, tmp, src, taps),
        Mids::Prep8tapScaled => scaled::prep_8tap_scaled(r, tmp, src, taps),
        Mids::PrepBilinScaled => scaled::prep_bilin_scaled(r, tmp, src),
    }
}

pub(crate) fn mids<P: Set>(k: Mids, r: &[u8], src: &mut [P]) -> bool {
    let mut tmp = [0; ROOM];
    let mut taps = [0; ROOM];
    let mut ext = [0; ROOM];
    let n0 = fill(r, 0, &mut tmp);
    let n1 = fill(r, 1, src);
    let n2 = fill(r, 2, &mut taps);
    let n3 = fill(r, 3, &mut ext);
    to_mids(k, r, &mut tmp[..n0], &src[..n1], &taps[..n2], &ext[..n3]) & same(r, 0, &tmp)
}

fn to_combined<P: Set>(
    k: Combined,
    r: &[u8],
    dst: &mut [P],
    tmp1: &[i16],
    tmp2: &[i16],
    mask: &mut [u8],
) -> bool {
    match k {
        Combined::Avg => combine::avg(r, dst, tmp1, tmp2),
        Combined::WAvg => combine::w_avg(r, dst, tmp1, tmp2),
        Combined::Mask => combine::mask(r, dst, tmp1, tmp2, mask),
        Combined::WMask => mask::w_mask(r, dst, tmp1, tmp2, mask),
    }
}

pub(crate) fn combined<P: Set>(k: Combined, r: &[u8], dst: &mut [P]) -> bool {
    let mut tmp1 = [0; ROOM];
    let mut tmp2 = [0; ROOM];
    let mut mask = [0; ROOM];
    let n0 = fill(r, 0, dst);
    let n1 = fill(r, 1, &mut tmp1);
    let n2 = fill(r, 2, &mut tmp2);
    let n3 = fill(r, 3, &mut mask);
    let answered = to_combined(
        k,
        r,
        &mut dst[..n0],
        &tmp1[..n1],
        &tmp2[..n2],
        &mut mask[..n3],
    );
    answered & same(r, 0, dst) & same(r, 3, &mask)
}
