// What C calls of blocks' warp of u16. Made from crates/blocks by tools/exports: change that.
ghost use Rattle.blocks.specs.Warp.{WarpAnswer, WarpTAnswer};
ghost use Rattle.blocks.specs.words.Depth.{depth_ok};
ghost use Rattle.rows.specs.Numbers.{up};

use blocks::refuse::number_told;
use blocks::warp;

#[unsafe(no_mangle)]
pub extern "C" fn hv_warp_affine_8x8_16bpc(
    depth: i32,
    dst: &mut [u16],
    dst_stride: usize,
    src: &[u16],
    src_stride: usize,
    src_off: usize,
    a: i16,
    b: i16,
    c: i16,
    d: i16,
    mx: i32,
    my: i32,
    warp: &[i8],
) -> u32
    ensures { WarpAnswer (depth_ok depth) (up depth) dst.old dst_stride src.now src_stride src_off a b c d mx my
        warp.now result dst.new }
{
    number_told(warp::hv_warp_affine_8x8(
        depth, dst, dst_stride, src, src_stride, src_off, a, b, c, d, mx, my, warp,
    ))
}

#[unsafe(no_mangle)]
pub extern "C" fn hv_warp_affine_8x8t_16bpc(
    depth: i32,
    tmp: &mut [i16],
    tmp_stride: usize,
    src: &[u16],
    src_stride: usize,
    src_off: usize,
    a: i16,
    b: i16,
    c: i16,
    d: i16,
    mx: i32,
    my: i32,
    warp: &[i8],
) -> u32
    ensures { WarpTAnswer (depth_ok depth) (up depth) tmp.old tmp_stride src.now src_stride src_off a b c d mx my
        warp.now result tmp.new }
{
    number_told(warp::hv_warp_affine_8x8t(
        depth, tmp, tmp_stride, src, src_stride, src_off, a, b, c, d, mx, my, warp,
    ))
}
