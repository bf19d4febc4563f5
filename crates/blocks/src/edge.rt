// emu_edge: a block of the endless plane.
ghost use Rattle.std.specs.Prelude.{◌≡◌, ◌+◌, ◌-◌, ◌^◌, ◌<◌, ◌≤◌, pos, nat_abs, ◌+ℤ◌, length};
ghost use Rattle.rows.specs.Numbers.{clip};
ghost use Rattle.blocks.specs.Refuse.{told, size_ok, lowest};
ghost use Rattle.blocks.specs.Edge.{place_ok, edge_tests, EdgeAnswer};
ghost use Rattle.rows.specs.Places.{fill};
ghost use Rattle.blocks.specs.inner.Ready.{Fetch};
ghost use Rattle.blocks.specs.inner.Source.{edge_in};

use crate::frame::Area;
use crate::refuse::{Refusal, holds_rows, needed, size_ok, stride_ok};
use crate::sample::Sample;
use crate::source::{Stand, row_first, top_down};
use rows::edge::{edge_row, left_of};

// A position within ±2^30.
pub fn place_ok(x: i64) -> bool
    ensures { result ≡ place_ok x }
{
    (-1073741824 <= x) & (x <= 1073741824)
}

#[tactic(auto, unfolding(crate::specs::Refuse::need))]
pub fn check_edge(
    a: Area,
    dl: usize,
    dst_stride: usize,
    pl: usize,
    plane_stride: usize,
) -> Result<(), Refusal>
    ensures { told result ≡ lowest (edge_tests a.ww a.wh a.iw a.ih a.left a.top dl dst_stride pl plane_stride) }
{
    needed(size_ok(128, a.ww), Refusal::Size)?;
    needed(size_ok(128, a.wh), Refusal::Size)?;
    needed(size_ok(16384, a.iw), Refusal::Size)?;
    needed(size_ok(16384, a.ih), Refusal::Size)?;
    needed(stride_ok(a.ww, dst_stride), Refusal::Stride)?;
    needed(stride_ok(a.iw, plane_stride), Refusal::Stride)?;
    needed(place_ok(a.left), Refusal::Number)?;
    needed(place_ok(a.top), Refusal::Number)?;
    needed(holds_rows(pl, plane_stride, a.iw, a.ih), Refusal::Read)?;
    needed(holds_rows(dl, dst_stride, a.ww, a.wh), Refusal::Written)
}

// The plane's row nearest to row y + j.
pub fn nearest_row(y: i64, j: usize, ih: usize) -> usize
    requires { (nat_abs y ≤ 2 ^ 30 + 3) × (j < 128) × (1 ≤ ih) × (ih ≤ 16384) }
    ensures { (result ≡ clip (ih - 1) (y +ℤ pos j)) × (result < ih) }
{
    left_of(0, y + j as i64, ih - 1)
}

// An area of the endless plane, row by row.
pub fn edge_rows<P: Sample>(a: Area, dst: &mut [P], dst_stride: usize, plane: &[P], s: Stand)
    requires { Fetch a (length dst.old) dst_stride (length plane.now) s }
    ensures { P.values dst.new
        ≡ fill (P.values dst.old) dst_stride a.ww a.wh (edge_in (P.values plane.now) s a.iw a.ih a.left a.top) }
{
    for j in 0..a.wh {
        let d = j * dst_stride;
        let k = nearest_row(a.top, j, a.ih);
        let o = row_first(s, k);
        edge_row(&mut dst[d..d + a.ww], plane, o, a.iw, a.left);
    }
}

pub fn hv_emu_edge<P: Sample>(
    bw: usize,
    bh: usize,
    iw: usize,
    ih: usize,
    x: i64,
    y: i64,
    dst: &mut [P],
    dst_stride: usize,
    plane: &[P],
    plane_stride: usize,
) -> Result<(), Refusal>
    ensures { EdgeAnswer bw bh iw ih x y (P.values dst.old) dst_stride (P.values plane.now) plane_stride (told result) (P.values dst.new) }
{
    let a = Area {
        ww: bw,
        wh: bh,
        iw,
        ih,
        left: x,
        top: y,
    };
    check_edge(a, dst.len(), dst_stride, plane.len(), plane_stride)?;
    let s = top_down(0, plane_stride);
    edge_rows(a, dst, dst_stride, plane, s);
    Ok(())
}
