// What C calls of blocks' plane_row of u8. Made from crates/blocks by tools/exports: change that.
ghost use Rattle.blocks.specs.Window.{row_at, PartAnswer};

use blocks::plane_row;

#[unsafe(no_mangle)]
pub extern "C" fn hv_row_8bpc(
    luma_w: usize,
    luma_h: usize,
    ss_hor: bool,
    ss_ver: bool,
    plane_no: u32,
    plane: &[u8],
    plane_stride: usize,
    row: i64,
    buffer: &mut u32,
    place: &mut usize,
    stride: &mut usize,
    len: &mut usize,
) -> u32
    ensures { PartAnswer (row_at
        (record {
          frame = record { luma_w = luma_w; luma_h = luma_h; ss_hor = ss_hor; ss_ver = ss_ver };
          plane_no = plane_no;
          plane = plane.now;
          stride = plane_stride;
        }) row)
        result buffer.new place.new stride.new len.new }
{
    plane_row::hv_row(
        luma_w,
        luma_h,
        ss_hor,
        ss_ver,
        plane_no,
        plane,
        plane_stride,
        row,
        buffer,
        place,
        stride,
        len,
    )
}
