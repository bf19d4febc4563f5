// What C calls of blocks' copy of u16. Made from crates/blocks by tools/exports: change that.
ghost use Rattle.blocks.specs.Copy.{PutAnswer, PrepAnswer};
ghost use Rattle.blocks.specs.words.Depth.{depth_ok};
ghost use Rattle.rows.specs.Numbers.{up};

use blocks::copy;
use blocks::refuse::number_told;

#[unsafe(no_mangle)]
pub extern "C" fn hv_put_16bpc(
    dst: &mut [u16],
    dst_stride: usize,
    src: &[u16],
    src_stride: usize,
    w: usize,
    h: usize,
) -> u32
    ensures { PutAnswer dst.old dst_stride src.now src_stride w h result dst.new }
{
    number_told(copy::hv_put(dst, dst_stride, src, src_stride, w, h))
}

#[unsafe(no_mangle)]
pub extern "C" fn hv_prep_16bpc(
    depth: i32,
    tmp: &mut [i16],
    tmp_stride: usize,
    src: &[u16],
    src_stride: usize,
    w: usize,
    h: usize,
) -> u32
    ensures { PrepAnswer (depth_ok depth) (up depth) tmp.old tmp_stride src.now src_stride w h result tmp.new }
{
    number_told(copy::hv_prep(depth, tmp, tmp_stride, src, src_stride, w, h))
}
