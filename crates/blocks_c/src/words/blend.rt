// What C calls of blocks' blend of u16. Made from crates/blocks by tools/exports: change that.
ghost use Rattle.blocks.specs.Blend.{BlendAnswer, MorphAnswer};
ghost use Rattle.blocks.specs.words.Depth.{depth_ok};
ghost use Rattle.rows.specs.Numbers.{up};

use blocks::blend;
use blocks::refuse::number_told;

#[unsafe(no_mangle)]
pub extern "C" fn hv_blend_16bpc(
    dst: &mut [u16],
    dst_stride: usize,
    tmp: &[u16],
    w: usize,
    h: usize,
    mask: &[u8],
    row: &mut usize,
    col: &mut usize,
) -> u32
    ensures { BlendAnswer dst.old dst_stride tmp.now w h mask.now result dst.new row.new
        col.new }
{
    number_told(blend::hv_blend(dst, dst_stride, tmp, w, h, mask, row, col))
}

#[unsafe(no_mangle)]
pub extern "C" fn hv_morph_16bpc(
    depth: i32,
    dst: &mut [u16],
    dst_stride: usize,
    alpha: i32,
    beta: i32,
    w: usize,
    h: usize,
) -> u32
    ensures { MorphAnswer (depth_ok depth) (up depth) dst.old dst_stride alpha beta w h result dst.new }
{
    number_told(blend::hv_morph(depth, dst, dst_stride, alpha, beta, w, h))
}
