// What C calls of blocks' bilinear of u16. Made from crates/blocks by tools/exports: change that.
ghost use Rattle.blocks.specs.Bilinear.{PutBilinAnswer, PrepBilinAnswer};
ghost use Rattle.blocks.specs.words.Depth.{depth_ok};
ghost use Rattle.rows.specs.Numbers.{up};

use blocks::bilinear;
use blocks::refuse::number_told;

#[unsafe(no_mangle)]
pub extern "C" fn hv_put_bilin_16bpc(
    depth: i32,
    dst: &mut [u16],
    dst_stride: usize,
    src: &[u16],
    src_stride: usize,
    w: usize,
    h: usize,
    mx: i32,
    my: i32,
) -> u32
    ensures { PutBilinAnswer (depth_ok depth) (up depth) dst.old dst_stride src.now src_stride w h mx my result dst.new }
{
    number_told(bilinear::hv_put_bilin(depth, dst, dst_stride, src, src_stride, w, h, mx, my))
}

#[unsafe(no_mangle)]
pub extern "C" fn hv_prep_bilin_16bpc(
    depth: i32,
    tmp: &mut [i16],
    tmp_stride: usize,
    src: &[u16],
    src_stride: usize,
    w: usize,
    h: usize,
    mx: i32,
    my: i32,
) -> u32
    ensures { PrepBilinAnswer (depth_ok depth) (up depth) tmp.old tmp_stride src.now src_stride w h mx my result
        tmp.new }
{
    number_told(bilinear::hv_prep_bilin(depth, tmp, tmp_stride, src, src_stride, w, h, mx, my))
}
