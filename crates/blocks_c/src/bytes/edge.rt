// What C calls of blocks' edge of u8. Made from crates/blocks by tools/exports: change that.
ghost use Rattle.blocks.specs.Edge.{EdgeAnswer};

use blocks::edge;
use blocks::refuse::number_told;

#[unsafe(no_mangle)]
pub extern "C" fn hv_emu_edge_8bpc(
    bw: usize,
    bh: usize,
    iw: usize,
    ih: usize,
    x: i64,
    y: i64,
    dst: &mut [u8],
    dst_stride: usize,
    plane: &[u8],
    plane_stride: usize,
) -> u32
    ensures { EdgeAnswer bw bh iw ih x y dst.old dst_stride plane.now plane_stride result dst.new }
{
    number_told(edge::hv_emu_edge(bw, bh, iw, ih, x, y, dst, dst_stride, plane, plane_stride))
}
