// A block predicted tile by tile, through the C function that runs orders.
ghost use Rattle.std.specs.Prelude.{◌≡◌, pos, ◌+ℤ◌, length};
ghost use Rattle.rows.specs.Numbers.{up};
ghost use Rattle.blocks.specs.words.Depth.{depth_ok};
ghost use Rattle.blocks.specs.Order.{kind_of};
ghost use Rattle.cut.specs.Answer.{TilesAnswer};
ghost use Rattle.cut.specs.inner.Tiles.{least, Left, Piece};

use blocks::order::hv_order_put;
use blocks::refuse::holds_rows;

// The shortest piece of a side that is on the side's own side of four.
#[tactic(auto, unfolding(crate::specs::inner::Tiles::least))]
fn shortest(whole: u32) -> u32
    ensures { result ≡ least whole }
{
    if whole > 4 { 5 } else { 1 }
}

// The next piece of what is left of a side: `step` pixels, or all where fewer would be too short, or would leave too few.
fn piece(whole: u32, left: u32, step: u32) -> u32
    requires { Left whole left }
    ensures { Piece whole left result }
{
    let few = shortest(whole);
    if step < few {
        return left;
    }
    if left < step {
        return left;
    }
    if left - step < few {
        return left;
    }
    step
}

// A place so many pixels on.
fn moved(place: i32, by: u32) -> i64
    ensures { result ≡ place +ℤ pos by }
{
    place as i64 + by as i64
}

// The copied, 8-tap or bilinear block of w x h whose first pixel is at x, y of the plane, cut into tiles of about tile_w x tile_h, each by a call of its own.
// An answer of 0: dst has the block as the endless plane has it, and nothing else changed. Else it is 2, 3 or 6, where no call is made (dst's stride
// doesn't carry the block, it is warped, dst doesn't hold it), or the number of the first tile that is refused; the tiles before that stay.
// Places of 32 bits leave no block out: an order's is within 2^30.
pub fn predict_in_tiles(
    depth: i32,
    luma_w: usize,
    luma_h: usize,
    ss_hor: bool,
    ss_ver: bool,
    plane_no: u32,
    plane: &[u16],
    plane_stride: usize,
    kind: u32,
    x: i32,
    y: i32,
    w: u32,
    h: u32,
    mx: i32,
    my: i32,
    filter_type: i32,
    subpel: &[i8],
    ext: &[i8],
    warp: &[i8],
    tile_w: u32,
    tile_h: u32,
    scratch: &mut [u16],
    dst: &mut [u16],
    dst_stride: usize,
) -> u32
    ensures { TilesAnswer
        (record {
          deep = depth_ok depth;
          depth = up depth;
          lent = record {
            frame = record { luma_w = luma_w; luma_h = luma_h; ss_hor = ss_hor; ss_ver = ss_ver };
            plane_no = plane_no;
            plane = plane.now;
            stride = plane_stride;
          };
          tables = record { subpel = subpel.entry.now; ext = ext.now; warp = warp.now };
        })
        (record { x = x; y = y; w = w; h = h; kind = kind_of kind mx my filter_type (pos 0) (pos 0) (pos 0) (pos 0) })
        kind (length scratch.old) dst_stride dst.old result dst.new }
{
    let row = w as usize;
    if dst_stride < row {
        return 2;
    }
    if kind > 2 {
        return 3;
    }
    if !holds_rows(dst.len(), dst_stride, row, h as usize) {
        return 6;
    }
    // Two loops by hand: a tile's height and width are found at its place, so no range counts them.
    let mut top = 0;
    while top < h {
        let rows = piece(h, h - top, tile_h);
        let mut left = 0;
        while left < w {
            let columns = piece(w, w - left, tile_w);
            let at = top as usize * dst_stride + left as usize;
            let number = hv_order_put(
                depth,
                luma_w,
                luma_h,
                ss_hor,
                ss_ver,
                plane_no,
                plane,
                plane_stride,
                kind,
                moved(x, left),
                moved(y, top),
                columns as usize,
                rows as usize,
                mx,
                my,
                filter_type,
                0,
                0,
                0,
                0,
                subpel,
                ext,
                warp,
                scratch,
                &mut dst[at..],
                dst_stride,
            );
            if number != 0 {
                return number;
            }
            left += columns;
        }
        top += rows;
    }
    0
}
