// What C calls of blocks' w_mask of u8. Made from crates/blocks by tools/exports: change that.
ghost use Rattle.std.specs.Prelude.{true};
ghost use Rattle.blocks.specs.WMask.{WMaskAnswer};

use blocks::refuse::number_told;
use blocks::w_mask;

#[unsafe(no_mangle)]
#[tactic(auto, unfolding(blocks::specs::bytes::Depth::depth_ok))]
pub extern "C" fn hv_w_mask_8bpc(
    dst: &mut [u8],
    dst_stride: usize,
    tmp1: &[i16],
    tmp2: &[i16],
    w: usize,
    h: usize,
    mask: &mut [u8],
    mask_stride: usize,
    sign: i32,
    ss_hor: bool,
    ss_ver: bool,
) -> u32
    ensures { WMaskAnswer true 8 dst.old dst_stride tmp1.now tmp2.now w h mask.old
        mask_stride sign ss_hor ss_ver result dst.new mask.new }
{
    number_told(w_mask::hv_w_mask(
        8,
        dst,
        dst_stride,
        tmp1,
        tmp2,
        w,
        h,
        mask,
        mask_stride,
        sign,
        ss_hor,
        ss_ver,
    ))
}
