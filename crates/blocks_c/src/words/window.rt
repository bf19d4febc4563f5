// What C calls of blocks' window of u16. Made from crates/blocks by tools/exports: change that.
ghost use Rattle.blocks.specs.Window.{WindowAnswer};

use blocks::window;

#[unsafe(no_mangle)]
pub extern "C" fn hv_window_16bpc(
    luma_w: usize,
    luma_h: usize,
    ss_hor: bool,
    ss_ver: bool,
    plane_no: u32,
    plane: &[u16],
    plane_stride: usize,
    kind: u32,
    w: usize,
    h: usize,
    x: i64,
    y: i64,
    mode: u32,
    scratch: &mut [u16],
    buffer: &mut u32,
    place: &mut usize,
    stride: &mut usize,
    len: &mut usize,
) -> u32
    ensures { WindowAnswer
        (record {
          frame = record { luma_w = luma_w; luma_h = luma_h; ss_hor = ss_hor; ss_ver = ss_ver };
          plane_no = plane_no;
          plane = plane.now;
          stride = plane_stride;
        })
        (record { kind = kind; w = w; h = h; x = x; y = y; mode = mode })
        scratch.old result buffer.new place.new stride.new len.new scratch.new }
{
    window::hv_window(
        luma_w,
        luma_h,
        ss_hor,
        ss_ver,
        plane_no,
        plane,
        plane_stride,
        kind,
        w,
        h,
        x,
        y,
        mode,
        scratch,
        buffer,
        place,
        stride,
        len,
    )
}
