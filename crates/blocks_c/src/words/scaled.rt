// What C calls of blocks' scaled of u16. Made from crates/blocks by tools/exports: change that.
ghost use Rattle.blocks.specs.Scaled.{Put8ScaledAnswer, Prep8ScaledAnswer, PutBilinScaledAnswer, PrepBilinScaledAnswer};
ghost use Rattle.blocks.specs.words.Depth.{depth_ok};
ghost use Rattle.rows.specs.Numbers.{up};

use blocks::refuse::number_told;
use blocks::scaled::kernels;

#[unsafe(no_mangle)]
pub extern "C" fn hv_put_8tap_scaled_16bpc(
    depth: i32,
    dst: &mut [u16],
    dst_stride: usize,
    src: &[u16],
    src_off: usize,
    src_stride: usize,
    w: usize,
    h: usize,
    mx: i32,
    my: i32,
    dx: i32,
    dy: i32,
    filter_type: i32,
    subpel: &[i8],
) -> u32
    ensures { Put8ScaledAnswer (depth_ok depth) (up depth) dst.old dst_stride src.now src_off src_stride w h mx my dx dy
        filter_type subpel.now result dst.new }
{
    number_told(kernels::hv_put_8tap_scaled(
        depth,
        dst,
        dst_stride,
        src,
        src_off,
        src_stride,
        w,
        h,
        mx,
        my,
        dx,
        dy,
        filter_type,
        subpel,
    ))
}

#[unsafe(no_mangle)]
pub extern "C" fn hv_prep_8tap_scaled_16bpc(
    depth: i32,
    tmp: &mut [i16],
    tmp_stride: usize,
    src: &[u16],
    src_off: usize,
    src_stride: usize,
    w: usize,
    h: usize,
    mx: i32,
    my: i32,
    dx: i32,
    dy: i32,
    filter_type: i32,
    subpel: &[i8],
) -> u32
    ensures { Prep8ScaledAnswer (depth_ok depth) (up depth) tmp.old tmp_stride src.now src_off src_stride w h mx my dx dy
        filter_type subpel.now result tmp.new }
{
    number_told(kernels::hv_prep_8tap_scaled(
        depth,
        tmp,
        tmp_stride,
        src,
        src_off,
        src_stride,
        w,
        h,
        mx,
        my,
        dx,
        dy,
        filter_type,
        subpel,
    ))
}

#[unsafe(no_mangle)]
pub extern "C" fn hv_put_bilin_scaled_16bpc(
    depth: i32,
    dst: &mut [u16],
    dst_stride: usize,
    src: &[u16],
    src_off: usize,
    src_stride: usize,
    w: usize,
    h: usize,
    mx: i32,
    my: i32,
    dx: i32,
    dy: i32,
) -> u32
    ensures { PutBilinScaledAnswer (depth_ok depth) (up depth) dst.old dst_stride src.now src_off src_stride w h mx my dx dy result
        dst.new }
{
    number_told(kernels::hv_put_bilin_scaled(
        depth, dst, dst_stride, src, src_off, src_stride, w, h, mx, my, dx, dy,
    ))
}

#[unsafe(no_mangle)]
pub extern "C" fn hv_prep_bilin_scaled_16bpc(
    depth: i32,
    tmp: &mut [i16],
    tmp_stride: usize,
    src: &[u16],
    src_off: usize,
    src_stride: usize,
    w: usize,
    h: usize,
    mx: i32,
    my: i32,
    dx: i32,
    dy: i32,
) -> u32
    ensures { PrepBilinScaledAnswer (depth_ok depth) (up depth) tmp.old tmp_stride src.now src_off src_stride w h mx my dx dy
        result tmp.new }
{
    number_told(kernels::hv_prep_bilin_scaled(
        depth, tmp, tmp_stride, src, src_off, src_stride, w, h, mx, my, dx, dy,
    ))
}
