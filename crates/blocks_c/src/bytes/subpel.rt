// What C calls of blocks' subpel of u8. Made from crates/blocks by tools/exports: change that.
ghost use Rattle.std.specs.Prelude.{true};
ghost use Rattle.blocks.specs.Subpel.{Put8Answer, Prep8Answer};

use blocks::refuse::number_told;
use blocks::subpel;

#[unsafe(no_mangle)]
#[tactic(auto, unfolding(blocks::specs::bytes::Depth::depth_ok))]
pub extern "C" fn hv_put_8tap_8bpc(
    dst: &mut [u8],
    dst_stride: usize,
    src: &[u8],
    src_off: usize,
    src_stride: usize,
    w: usize,
    h: usize,
    mx: i32,
    my: i32,
    filter_type: i32,
    subpel: &[i8],
    ext: &[i8],
) -> u32
    ensures { Put8Answer true 8 dst.old dst_stride src.now src_off src_stride w h mx my filter_type
        subpel.now ext.now result dst.new }
{
    number_told(subpel::hv_put_8tap(
        8,
        dst,
        dst_stride,
        src,
        src_off,
        src_stride,
        w,
        h,
        mx,
        my,
        filter_type,
        subpel,
        ext,
    ))
}

#[unsafe(no_mangle)]
#[tactic(auto, unfolding(blocks::specs::bytes::Depth::depth_ok))]
pub extern "C" fn hv_prep_8tap_8bpc(
    tmp: &mut [i16],
    tmp_stride: usize,
    src: &[u8],
    src_off: usize,
    src_stride: usize,
    w: usize,
    h: usize,
    mx: i32,
    my: i32,
    filter_type: i32,
    subpel: &[i8],
    ext: &[i8],
) -> u32
    ensures { Prep8Answer true 8 tmp.old tmp_stride src.now src_off src_stride w h mx my filter_type
        subpel.now ext.now result tmp.new }
{
    number_told(subpel::hv_prep_8tap(
        8,
        tmp,
        tmp_stride,
        src,
        src_off,
        src_stride,
        w,
        h,
        mx,
        my,
        filter_type,
        subpel,
        ext,
    ))
}
