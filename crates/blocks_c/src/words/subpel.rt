// What C calls of blocks' subpel of u16. Made from crates/blocks by tools/exports: change that.
ghost use Rattle.blocks.specs.Subpel.{Put8Answer, Prep8Answer};
ghost use Rattle.blocks.specs.words.Depth.{depth_ok};
ghost use Rattle.rows.specs.Numbers.{up};

use blocks::refuse::number_told;
use blocks::subpel;

#[unsafe(no_mangle)]
pub extern "C" fn hv_put_8tap_16bpc(
    depth: i32,
    dst: &mut [u16],
    dst_stride: usize,
    src: &[u16],
    src_off: usize,
    src_stride: usize,
    w: usize,
    h: usize,
    mx: i32,
    my: i32,
    filter_type: i32,
    subpel: &[i8],
    ext: &[i8],
) -> u32
    ensures { Put8Answer (depth_ok depth) (up depth) dst.old dst_stride src.now src_off src_stride w h mx my filter_type
        subpel.now ext.now result dst.new }
{
    number_told(subpel::hv_put_8tap(
        depth,
        dst,
        dst_stride,
        src,
        src_off,
        src_stride,
        w,
        h,
        mx,
        my,
        filter_type,
        subpel,
        ext,
    ))
}

#[unsafe(no_mangle)]
pub extern "C" fn hv_prep_8tap_16bpc(
    depth: i32,
    tmp: &mut [i16],
    tmp_stride: usize,
    src: &[u16],
    src_off: usize,
    src_stride: usize,
    w: usize,
    h: usize,
    mx: i32,
    my: i32,
    filter_type: i32,
    subpel: &[i8],
    ext: &[i8],
) -> u32
    ensures { Prep8Answer (depth_ok depth) (up depth) tmp.old tmp_stride src.now src_off src_stride w h mx my filter_type
        subpel.now ext.now result tmp.new }
{
    number_told(subpel::hv_prep_8tap(
        depth,
        tmp,
        tmp_stride,
        src,
        src_off,
        src_stride,
        w,
        h,
        mx,
        my,
        filter_type,
        subpel,
        ext,
    ))
}
