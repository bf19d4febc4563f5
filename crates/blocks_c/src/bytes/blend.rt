// What C calls of blocks' blend of u8. Made from crates/blocks by tools/exports: change that.
ghost use Rattle.std.specs.Prelude.{true};
ghost use Rattle.blocks.specs.Blend.{BlendAnswer, MorphAnswer};

use blocks::blend;
use blocks::refuse::number_told;

#[unsafe(no_mangle)]
pub extern "C" fn hv_blend_8bpc(
    dst: &mut [u8],
    dst_stride: usize,
    tmp: &[u8],
    w: usize,
    h: usize,
    mask: &[u8],
    row: &mut usize,
    col: &mut usize,
) -> u32
    ensures { BlendAnswer dst.old dst_stride tmp.now w h mask.now result dst.new row.new
        col.new }
{
    number_told(blend::hv_blend(dst, dst_stride, tmp, w, h, mask, row, col))
}

#[unsafe(no_mangle)]
#[tactic(auto, unfolding(blocks::specs::bytes::Depth::depth_ok))]
pub extern "C" fn hv_morph_8bpc(
    dst: &mut [u8],
    dst_stride: usize,
    alpha: i32,
    beta: i32,
    w: usize,
    h: usize,
) -> u32
    ensures { MorphAnswer true 8 dst.old dst_stride alpha beta w h result dst.new }
{
    number_told(blend::hv_morph(8, dst, dst_stride, alpha, beta, w, h))
}
