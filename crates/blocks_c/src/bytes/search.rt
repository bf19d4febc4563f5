// What C calls of blocks' search of u8. Made from crates/blocks by tools/exports: change that.
ghost use Rattle.std.specs.Prelude.{true};
ghost use Rattle.blocks.specs.Search.{SadAnswer, RefineAnswer};

use blocks::refuse::number_told;
use blocks::search;

#[unsafe(no_mangle)]
#[tactic(auto, unfolding(blocks::specs::bytes::Depth::depth_ok))]
pub extern "C" fn hv_sad_nxn_8bpc(
    p0: &[u8],
    p0_stride: usize,
    p1: &[u8],
    p1_stride: usize,
    w: usize,
    h: usize,
    sum: &mut i32,
) -> u32
    ensures { SadAnswer true 8 p0.now p0_stride p1.now p1_stride w h result sum.new }
{
    number_told(search::hv_sad_nxn(8, p0, p0_stride, p1, p1_stride, w, h, sum))
}

#[unsafe(no_mangle)]
#[tactic(auto, unfolding(blocks::specs::bytes::Depth::depth_ok))]
pub extern "C" fn hv_sad_refine_mv_8bpc(
    p0: &[u8],
    p0_stride: usize,
    p1: &[u8],
    p1_stride: usize,
    w: usize,
    h: usize,
    is_implicit: bool,
    dx: &mut i32,
    dy: &mut i32,
) -> u32
    ensures { RefineAnswer true 8 p0.now p0_stride p1.now p1_stride w h is_implicit result dx.new
        dy.new }
{
    number_told(search::hv_sad_refine_mv(
        8,
        p0,
        p0_stride,
        p1,
        p1_stride,
        w,
        h,
        is_implicit,
        dx,
        dy,
    ))
}
