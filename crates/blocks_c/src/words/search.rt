// What C calls of blocks' search of u16. Made from crates/blocks by tools/exports: change that.
ghost use Rattle.blocks.specs.Search.{SadAnswer, RefineAnswer};
ghost use Rattle.blocks.specs.words.Depth.{depth_ok};
ghost use Rattle.rows.specs.Numbers.{up};

use blocks::refuse::number_told;
use blocks::search;

#[unsafe(no_mangle)]
pub extern "C" fn hv_sad_nxn_16bpc(
    depth: i32,
    p0: &[u16],
    p0_stride: usize,
    p1: &[u16],
    p1_stride: usize,
    w: usize,
    h: usize,
    sum: &mut i32,
) -> u32
    ensures { SadAnswer (depth_ok depth) (up depth) p0.now p0_stride p1.now p1_stride w h result sum.new }
{
    number_told(search::hv_sad_nxn(depth, p0, p0_stride, p1, p1_stride, w, h, sum))
}

#[unsafe(no_mangle)]
pub extern "C" fn hv_sad_refine_mv_16bpc(
    depth: i32,
    p0: &[u16],
    p0_stride: usize,
    p1: &[u16],
    p1_stride: usize,
    w: usize,
    h: usize,
    is_implicit: bool,
    dx: &mut i32,
    dy: &mut i32,
) -> u32
    ensures { RefineAnswer (depth_ok depth) (up depth) p0.now p0_stride p1.now p1_stride w h is_implicit result dx.new
        dy.new }
{
    number_told(search::hv_sad_refine_mv(
        depth,
        p0,
        p0_stride,
        p1,
        p1_stride,
        w,
        h,
        is_implicit,
        dx,
        dy,
    ))
}
