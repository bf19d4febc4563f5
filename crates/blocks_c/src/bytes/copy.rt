// What C calls of blocks' copy of u8. Made from crates/blocks by tools/exports: change that.
ghost use Rattle.std.specs.Prelude.{true};
ghost use Rattle.blocks.specs.Copy.{PutAnswer, PrepAnswer};

use blocks::copy;
use blocks::refuse::number_told;

#[unsafe(no_mangle)]
pub extern "C" fn hv_put_8bpc(
    dst: &mut [u8],
    dst_stride: usize,
    src: &[u8],
    src_stride: usize,
    w: usize,
    h: usize,
) -> u32
    ensures { PutAnswer dst.old dst_stride src.now src_stride w h result dst.new }
{
    number_told(copy::hv_put(dst, dst_stride, src, src_stride, w, h))
}

#[unsafe(no_mangle)]
#[tactic(auto, unfolding(blocks::specs::bytes::Depth::depth_ok))]
pub extern "C" fn hv_prep_8bpc(
    tmp: &mut [i16],
    tmp_stride: usize,
    src: &[u8],
    src_stride: usize,
    w: usize,
    h: usize,
) -> u32
    ensures { PrepAnswer true 8 tmp.old tmp_stride src.now src_stride w h result tmp.new }
{
    number_told(copy::hv_prep(8, tmp, tmp_stride, src, src_stride, w, h))
}
