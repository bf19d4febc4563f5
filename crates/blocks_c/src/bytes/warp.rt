// What C calls of blocks' warp of u8. Made from crates/blocks by tools/exports: change that.
ghost use Rattle.std.specs.Prelude.{true};
ghost use Rattle.blocks.specs.Warp.{WarpAnswer, WarpTAnswer};

use blocks::refuse::number_told;
use blocks::warp;

#[unsafe(no_mangle)]
#[tactic(auto, unfolding(blocks::specs::bytes::Depth::depth_ok))]
pub extern "C" fn hv_warp_affine_8x8_8bpc(
    dst: &mut [u8],
    dst_stride: usize,
    src: &[u8],
    src_stride: usize,
    src_off: usize,
    a: i16,
    b: i16,
    c: i16,
    d: i16,
    mx: i32,
    my: i32,
    warp: &[i8],
) -> u32
    ensures { WarpAnswer true 8 dst.old dst_stride src.now src_stride src_off a b c d mx my
        warp.now result dst.new }
{
    number_told(warp::hv_warp_affine_8x8(
        8, dst, dst_stride, src, src_stride, src_off, a, b, c, d, mx, my, warp,
    ))
}

#[unsafe(no_mangle)]
#[tactic(auto, unfolding(blocks::specs::bytes::Depth::depth_ok))]
pub extern "C" fn hv_warp_affine_8x8t_8bpc(
    tmp: &mut [i16],
    tmp_stride: usize,
    src: &[u8],
    src_stride: usize,
    src_off: usize,
    a: i16,
    b: i16,
    c: i16,
    d: i16,
    mx: i32,
    my: i32,
    warp: &[i8],
) -> u32
    ensures { WarpTAnswer true 8 tmp.old tmp_stride src.now src_stride src_off a b c d mx my
        warp.now result tmp.new }
{
    number_told(warp::hv_warp_affine_8x8t(
        8, tmp, tmp_stride, src, src_stride, src_off, a, b, c, d, mx, my, warp,
    ))
}
