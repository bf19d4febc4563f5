// What C calls of blocks' bilinear of u8. Made from crates/blocks by tools/exports: change that.
ghost use Rattle.std.specs.Prelude.{true};
ghost use Rattle.blocks.specs.Bilinear.{PutBilinAnswer, PrepBilinAnswer};

use blocks::bilinear;
use blocks::refuse::number_told;

#[unsafe(no_mangle)]
#[tactic(auto, unfolding(blocks::specs::bytes::Depth::depth_ok))]
pub extern "C" fn hv_put_bilin_8bpc(
    dst: &mut [u8],
    dst_stride: usize,
    src: &[u8],
    src_stride: usize,
    w: usize,
    h: usize,
    mx: i32,
    my: i32,
) -> u32
    ensures { PutBilinAnswer true 8 dst.old dst_stride src.now src_stride w h mx my result dst.new }
{
    number_told(bilinear::hv_put_bilin(8, dst, dst_stride, src, src_stride, w, h, mx, my))
}

#[unsafe(no_mangle)]
#[tactic(auto, unfolding(blocks::specs::bytes::Depth::depth_ok))]
pub extern "C" fn hv_prep_bilin_8bpc(
    tmp: &mut [i16],
    tmp_stride: usize,
    src: &[u8],
    src_stride: usize,
    w: usize,
    h: usize,
    mx: i32,
    my: i32,
) -> u32
    ensures { PrepBilinAnswer true 8 tmp.old tmp_stride src.now src_stride w h mx my result
        tmp.new }
{
    number_told(bilinear::hv_prep_bilin(8, tmp, tmp_stride, src, src_stride, w, h, mx, my))
}
