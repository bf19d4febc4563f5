// The row helper: where a row of a plane lies, and the row itself.
ghost use Rattle.std.specs.Prelude.{◌≡◌, List, ℕ, pos, length, ◌&&◌, []};
ghost use Rattle.std.specs.Int.Signed.{le_z, lt_z};
ghost use Rattle.blocks.specs.Refuse.{told, lowest};
ghost use Rattle.blocks.specs.Window.{row_tests, row_at, part_of, PartAnswer};
ghost use Rattle.blocks.specs.inner.Window.{lent_of};

use crate::frame::{Frame, Reference, frame_names_ok, frame_sizes_ok, plane_h, plane_w};
use crate::numbers::up64;
use crate::refuse::{Refusal, holds_rows, needed, stride_ok};
use crate::sample::Sample;
use crate::window::{Part, no_part, pick};

// A row of a plane of h rows.
fn row_ok(row: i64, h: usize) -> bool
    ensures { result ≡ le_z (pos 0) row && lt_z row (pos h) }
{
    if row < 0 { false } else { up64(row) < h }
}

// The tests of a row's call.
#[tactic(auto, unfolding(crate::specs::Refuse::need))]
fn check_row(lent: Reference, pl: usize, row: i64) -> Result<(), Refusal>
    ensures { (plane : List ℕ) → length plane ≡ pl → told result ≡ lowest (row_tests (lent_of lent plane) row) }
{
    let f = lent.frame;
    let n = lent.plane_no;
    let iw = plane_w(f, n);
    let ih = plane_h(f, n);
    needed(frame_sizes_ok(f, n), Refusal::Size)?;
    needed(stride_ok(iw, lent.stride), Refusal::Stride)?;
    needed(frame_names_ok(f, n), Refusal::Number)?;
    needed(row_ok(row, ih), Refusal::Number)?;
    needed(holds_rows(pl, lent.stride, iw, ih), Refusal::Read)
}

// Where a row of a plane lies.
pub fn row_at(lent: Reference, pl: usize, row: i64) -> Part
    ensures { (plane : List ℕ) → length plane ≡ pl → result ≡ row_at (lent_of lent plane) row }
{
    if let Err(why) = check_row(lent, pl, row) {
        return no_part(why.number());
    }
    let f = lent.frame;
    let s = lent.stride;
    let place = up64(row) * s;
    let len = plane_w(f, lent.plane_no);
    Part {
        number: 0,
        buffer: 1,
        place,
        stride: s,
        len,
    }
}

// The row itself.
pub fn row_part<P: Sample>(lent: Reference, plane: &[P], row: i64) -> &[P]
    ensures { P.values result.now ≡ part_of (row_at (lent_of lent (P.values plane.now)) row) (P.values plane.now) [] }
{
    let part = row_at(lent, plane.len(), row);
    pick(part, plane, &plane[0..0])
}

pub fn hv_row<P: Sample>(
    luma_w: usize,
    luma_h: usize,
    ss_hor: bool,
    ss_ver: bool,
    plane_no: u32,
    plane: &[P],
    plane_stride: usize,
    row: i64,
    buffer: &mut u32,
    place: &mut usize,
    stride: &mut usize,
    len: &mut usize,
) -> u32
    ensures { PartAnswer (row_at
        (record {
          frame = record { luma_w = luma_w; luma_h = luma_h; ss_hor = ss_hor; ss_ver = ss_ver };
          plane_no = plane_no;
          plane = (P.values plane.now);
          stride = plane_stride;
        }) row)
        result buffer.new place.new stride.new len.new }
{
    let f = Frame {
        luma_w,
        luma_h,
        ss_hor,
        ss_ver,
    };
    let lent = Reference {
        frame: f,
        plane_no,
        stride: plane_stride,
    };
    let part = row_at(lent, plane.len(), row);
    *buffer = part.buffer;
    *place = part.place;
    *stride = part.stride;
    *len = part.len;
    part.number
}
