// What C calls of blocks' combine of u16. Made from crates/blocks by tools/exports: change that.
ghost use Rattle.blocks.specs.Combine.{AvgAnswer, WAvgAnswer, MaskAnswer};
ghost use Rattle.blocks.specs.words.Depth.{depth_ok};
ghost use Rattle.rows.specs.Numbers.{up};

use blocks::combine;
use blocks::refuse::number_told;

#[unsafe(no_mangle)]
pub extern "C" fn hv_avg_16bpc(
    depth: i32,
    dst: &mut [u16],
    dst_stride: usize,
    tmp1: &[i16],
    tmp2: &[i16],
    w: usize,
    h: usize,
) -> u32
    ensures { AvgAnswer (depth_ok depth) (up depth) dst.old dst_stride tmp1.now tmp2.now w h result dst.new }
{
    number_told(combine::hv_avg(depth, dst, dst_stride, tmp1, tmp2, w, h))
}

#[unsafe(no_mangle)]
pub extern "C" fn hv_w_avg_16bpc(
    depth: i32,
    dst: &mut [u16],
    dst_stride: usize,
    tmp1: &[i16],
    tmp2: &[i16],
    w: usize,
    h: usize,
    weight: i32,
) -> u32
    ensures { WAvgAnswer (depth_ok depth) (up depth) dst.old dst_stride tmp1.now tmp2.now w h weight result
        dst.new }
{
    number_told(combine::hv_w_avg(depth, dst, dst_stride, tmp1, tmp2, w, h, weight))
}

#[unsafe(no_mangle)]
pub extern "C" fn hv_mask_16bpc(
    depth: i32,
    dst: &mut [u16],
    dst_stride: usize,
    tmp1: &[i16],
    tmp2: &[i16],
    w: usize,
    h: usize,
    mask: &[u8],
) -> u32
    ensures { MaskAnswer (depth_ok depth) (up depth) dst.old dst_stride tmp1.now tmp2.now w h mask.now result
        dst.new }
{
    number_told(combine::hv_mask(depth, dst, dst_stride, tmp1, tmp2, w, h, mask))
}
