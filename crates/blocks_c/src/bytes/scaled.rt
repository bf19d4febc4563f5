// What C calls of blocks' scaled of u8. Made from crates/blocks by tools/exports: change that.
ghost use Rattle.std.specs.Prelude.{true};
ghost use Rattle.blocks.specs.Scaled.{Put8ScaledAnswer, Prep8ScaledAnswer, PutBilinScaledAnswer, PrepBilinScaledAnswer};

use blocks::refuse::number_told;
use blocks::scaled::kernels;

#[unsafe(no_mangle)]
#[tactic(auto, unfolding(blocks::specs::bytes::Depth::depth_ok))]
pub extern "C" fn hv_put_8tap_scaled_8bpc(
    dst: &mut [u8],
    dst_stride: usize,
    src: &[u8],
    src_off: usize,
    src_stride: usize,
    w: usize,
    h: usize,
    mx: i32,
    my: i32,
    dx: i32,
    dy: i32,
    filter_type: i32,
    subpel: &[i8],
) -> u32
    ensures { Put8ScaledAnswer true 8 dst.old dst_stride src.now src_off src_stride w h mx my dx dy
        filter_type subpel.now result dst.new }
{
    number_told(kernels::hv_put_8tap_scaled(
        8,
        dst,
        dst_stride,
        src,
        src_off,
        src_stride,
        w,
        h,
        mx,
        my,
        dx,
        dy,
        filter_type,
        subpel,
    ))
}

#[unsafe(no_mangle)]
#[tactic(auto, unfolding(blocks::specs::bytes::Depth::depth_ok))]
pub extern "C" fn hv_prep_8tap_scaled_8bpc(
    tmp: &mut [i16],
    tmp_stride: usize,
    src: &[u8],
    src_off: usize,
    src_stride: usize,
    w: usize,
    h: usize,
    mx: i32,
    my: i32,
    dx: i32,
    dy: i32,
    filter_type: i32,
    subpel: &[i8],
) -> u32
    ensures { Prep8ScaledAnswer true 8 tmp.old tmp_stride src.now src_off src_stride w h mx my dx dy
        filter_type subpel.now result tmp.new }
{
    number_told(kernels::hv_prep_8tap_scaled(
        8,
        tmp,
        tmp_stride,
        src,
        src_off,
        src_stride,
        w,
        h,
        mx,
        my,
        dx,
        dy,
        filter_type,
        subpel,
    ))
}

#[unsafe(no_mangle)]
#[tactic(auto, unfolding(blocks::specs::bytes::Depth::depth_ok))]
pub extern "C" fn hv_put_bilin_scaled_8bpc(
    dst: &mut [u8],
    dst_stride: usize,
    src: &[u8],
    src_off: usize,
    src_stride: usize,
    w: usize,
    h: usize,
    mx: i32,
    my: i32,
    dx: i32,
    dy: i32,
) -> u32
    ensures { PutBilinScaledAnswer true 8 dst.old dst_stride src.now src_off src_stride w h mx my dx dy result
        dst.new }
{
    number_told(kernels::hv_put_bilin_scaled(
        8, dst, dst_stride, src, src_off, src_stride, w, h, mx, my, dx, dy,
    ))
}

#[unsafe(no_mangle)]
#[tactic(auto, unfolding(blocks::specs::bytes::Depth::depth_ok))]
pub extern "C" fn hv_prep_bilin_scaled_8bpc(
    tmp: &mut [i16],
    tmp_stride: usize,
    src: &[u8],
    src_off: usize,
    src_stride: usize,
    w: usize,
    h: usize,
    mx: i32,
    my: i32,
    dx: i32,
    dy: i32,
) -> u32
    ensures { PrepBilinScaledAnswer true 8 tmp.old tmp_stride src.now src_off src_stride w h mx my dx dy
        result tmp.new }
{
    number_told(kernels::hv_prep_bilin_scaled(
        8, tmp, tmp_stride, src, src_off, src_stride, w, h, mx, my, dx, dy,
    ))
}
