// What C calls of blocks' order of u16. Made from crates/blocks by tools/exports: change that.
ghost use Rattle.std.specs.Prelude.{leb};
ghost use Rattle.blocks.specs.Order.{kind_of, OrderPutAnswer, OrderPrepAnswer};
ghost use Rattle.blocks.specs.words.Depth.{depth_ok};
ghost use Rattle.rows.specs.Numbers.{up};

use blocks::order;

#[unsafe(no_mangle)]
pub extern "C" fn hv_order_put_16bpc(
    depth: i32,
    luma_w: usize,
    luma_h: usize,
    ss_hor: bool,
    ss_ver: bool,
    plane_no: u32,
    plane: &[u16],
    plane_stride: usize,
    kind: u32,
    x: i64,
    y: i64,
    w: usize,
    h: usize,
    mx: i32,
    my: i32,
    filter_type: i32,
    a: i16,
    b: i16,
    c: i16,
    d: i16,
    subpel: &[i8],
    ext: &[i8],
    warp: &[i8],
    scratch: &mut [u16],
    dst: &mut [u16],
    dst_stride: usize,
) -> u32
    ensures { OrderPutAnswer
        (record {
          deep = depth_ok depth;
          depth = up depth;
          lent = record {
            frame = record { luma_w = luma_w; luma_h = luma_h; ss_hor = ss_hor; ss_ver = ss_ver };
            plane_no = plane_no;
            plane = plane.now;
            stride = plane_stride;
          };
          tables = record { subpel = subpel.entry.now; ext = ext.now; warp = warp.now };
        })
        (leb kind 3) (record { x = x; y = y; w = w; h = h; kind = kind_of kind mx my filter_type a b c d })
        scratch.old dst.old dst_stride result scratch.new dst.new }
{
    order::hv_order_put(
        depth,
        luma_w,
        luma_h,
        ss_hor,
        ss_ver,
        plane_no,
        plane,
        plane_stride,
        kind,
        x,
        y,
        w,
        h,
        mx,
        my,
        filter_type,
        a,
        b,
        c,
        d,
        subpel,
        ext,
        warp,
        scratch,
        dst,
        dst_stride,
    )
}

#[unsafe(no_mangle)]
pub extern "C" fn hv_order_prep_16bpc(
    depth: i32,
    luma_w: usize,
    luma_h: usize,
    ss_hor: bool,
    ss_ver: bool,
    plane_no: u32,
    plane: &[u16],
    plane_stride: usize,
    kind: u32,
    x: i64,
    y: i64,
    w: usize,
    h: usize,
    mx: i32,
    my: i32,
    filter_type: i32,
    a: i16,
    b: i16,
    c: i16,
    d: i16,
    subpel: &[i8],
    ext: &[i8],
    warp: &[i8],
    scratch: &mut [u16],
    tmp: &mut [i16],
    tmp_stride: usize,
) -> u32
    ensures { OrderPrepAnswer
        (record {
          deep = depth_ok depth;
          depth = up depth;
          lent = record {
            frame = record { luma_w = luma_w; luma_h = luma_h; ss_hor = ss_hor; ss_ver = ss_ver };
            plane_no = plane_no;
            plane = plane.now;
            stride = plane_stride;
          };
          tables = record { subpel = subpel.entry.now; ext = ext.now; warp = warp.now };
        })
        (leb kind 3) (record { x = x; y = y; w = w; h = h; kind = kind_of kind mx my filter_type a b c d })
        scratch.old tmp.old tmp_stride result scratch.new tmp.new }
{
    order::hv_order_prep(
        depth,
        luma_w,
        luma_h,
        ss_hor,
        ss_ver,
        plane_no,
        plane,
        plane_stride,
        kind,
        x,
        y,
        w,
        h,
        mx,
        my,
        filter_type,
        a,
        b,
        c,
        d,
        subpel,
        ext,
        warp,
        scratch,
        tmp,
        tmp_stride,
    )
}
