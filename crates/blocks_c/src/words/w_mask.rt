// What C calls of blocks' w_mask of u16. Made from crates/blocks by tools/exports: change that.
ghost use Rattle.blocks.specs.WMask.{WMaskAnswer};
ghost use Rattle.blocks.specs.words.Depth.{depth_ok};
ghost use Rattle.rows.specs.Numbers.{up};

use blocks::refuse::number_told;
use blocks::w_mask;

#[unsafe(no_mangle)]
pub extern "C" fn hv_w_mask_16bpc(
    depth: i32,
    dst: &mut [u16],
    dst_stride: usize,
    tmp1: &[i16],
    tmp2: &[i16],
    w: usize,
    h: usize,
    mask: &mut [u8],
    mask_stride: usize,
    sign: i32,
    ss_hor: bool,
    ss_ver: bool,
) -> u32
    ensures { WMaskAnswer (depth_ok depth) (up depth) dst.old dst_stride tmp1.now tmp2.now w h mask.old
        mask_stride sign ss_hor ss_ver result dst.new mask.new }
{
    number_told(w_mask::hv_w_mask(
        depth,
        dst,
        dst_stride,
        tmp1,
        tmp2,
        w,
        h,
        mask,
        mask_stride,
        sign,
        ss_hor,
        ss_ver,
    ))
}
