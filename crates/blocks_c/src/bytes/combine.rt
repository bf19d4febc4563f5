// What C calls of blocks' combine of u8. Made from crates/blocks by tools/exports: change that.
ghost use Rattle.std.specs.Prelude.{true};
ghost use Rattle.blocks.specs.Combine.{AvgAnswer, WAvgAnswer, MaskAnswer};

use blocks::combine;
use blocks::refuse::number_told;

#[unsafe(no_mangle)]
#[tactic(auto, unfolding(blocks::specs::bytes::Depth::depth_ok))]
pub extern "C" fn hv_avg_8bpc(
    dst: &mut [u8],
    dst_stride: usize,
    tmp1: &[i16],
    tmp2: &[i16],
    w: usize,
    h: usize,
) -> u32
    ensures { AvgAnswer true 8 dst.old dst_stride tmp1.now tmp2.now w h result dst.new }
{
    number_told(combine::hv_avg(8, dst, dst_stride, tmp1, tmp2, w, h))
}

#[unsafe(no_mangle)]
#[tactic(auto, unfolding(blocks::specs::bytes::Depth::depth_ok))]
pub extern "C" fn hv_w_avg_8bpc(
    dst: &mut [u8],
    dst_stride: usize,
    tmp1: &[i16],
    tmp2: &[i16],
    w: usize,
    h: usize,
    weight: i32,
) -> u32
    ensures { WAvgAnswer true 8 dst.old dst_stride tmp1.now tmp2.now w h weight result
        dst.new }
{
    number_told(combine::hv_w_avg(8, dst, dst_stride, tmp1, tmp2, w, h, weight))
}

#[unsafe(no_mangle)]
#[tactic(auto, unfolding(blocks::specs::bytes::Depth::depth_ok))]
pub extern "C" fn hv_mask_8bpc(
    dst: &mut [u8],
    dst_stride: usize,
    tmp1: &[i16],
    tmp2: &[i16],
    w: usize,
    h: usize,
    mask: &[u8],
) -> u32
    ensures { MaskAnswer true 8 dst.old dst_stride tmp1.now tmp2.now w h mask.now result
        dst.new }
{
    number_told(combine::hv_mask(8, dst, dst_stride, tmp1, tmp2, w, h, mask))
}
