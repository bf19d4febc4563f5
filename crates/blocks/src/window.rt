// Windows: where a block's pixels with its margins lie, in the plane or in scratch.
ghost use Rattle.std.specs.Prelude.{◌≡◌, List, ℕ, ◌+◌, ◌^◌, ◌≤◌, nat_abs, length};
ghost use Rattle.blocks.specs.Refuse.{told, lowest, size_ok, stride_ok, part_len};
ghost use Rattle.blocks.specs.Edge.{place_ok};
ghost use Rattle.blocks.specs.inner.Ready.{Ranged, Fetch, PartIn};
ghost use Rattle.blocks.specs.Window.{plane_w, plane_h, frame_sizes_ok, frame_names_ok, window_side, window_tests, inside, is_planes, no_part, window_of, scratch_of, part_of, WindowAnswer};
ghost use Rattle.blocks.specs.inner.Window.{lent_of, asked, area_at, area_fetched};
ghost use Rattle.blocks.specs.inner.Source.{top_down};

use crate::edge::{edge_rows, place_ok};
use crate::frame::{
    Area, Frame, Reference, area_of, frame_names_ok, frame_sizes_ok, plane_h, plane_w, window_side,
};
use crate::numbers::up64;
use crate::refuse::{Refusal, holds_rows, needed, size_ok, stride_ok};
use crate::sample::Sample;
use crate::source::top_down;

// A part of a buffer: 1 the plane, 2 scratch; its first place, its stride and its length. Refused: the number and zeros.
#[derive(Clone, Copy)]
pub struct Part {
    pub number: u32,
    pub buffer: u32,
    pub place: usize,
    pub stride: usize,
    pub len: usize,
}

#[tactic(auto, using(crate::proofs::Laws::Calls::Refuse::size_met), unfolding(crate::specs::Refuse::need))]
pub fn check_window(
    lent: Reference,
    pl: usize,
    kind: u32,
    w: usize,
    h: usize,
    x: i64,
    y: i64,
    mode: u32,
    sl: usize,
) -> Result<(), Refusal>
    ensures { (plane : List ℕ) → length plane ≡ pl → told result ≡ lowest (window_tests (lent_of lent plane) (asked kind w h x y mode) sl) }
{
    let f = lent.frame;
    let n = lent.plane_no;
    needed(frame_sizes_ok(f, n), Refusal::Size)?;
    needed(size_ok(64, w), Refusal::Size)?;
    needed(size_ok(64, h), Refusal::Size)?;
    needed(stride_ok(plane_w(f, n), lent.stride), Refusal::Stride)?;
    needed(frame_names_ok(f, n), Refusal::Number)?;
    needed(kind <= 3, Refusal::Number)?;
    needed(place_ok(x), Refusal::Number)?;
    needed(place_ok(y), Refusal::Number)?;
    needed(mode <= 1, Refusal::Number)?;
    let ww = window_side(kind, w);
    let wh = window_side(kind, h);
    needed(
        holds_rows(pl, lent.stride, plane_w(f, n), plane_h(f, n)),
        Refusal::Read,
    )?;
    needed(holds_rows(sl, ww, ww, wh), Refusal::Written)
}

// n columns from x on lie inside a side.
fn inside(x: i64, n: usize, side: usize) -> bool
    requires { (nat_abs x ≤ 2 ^ 30 + 3) × (n ≤ 128) × (side ≤ 16384) }
    ensures { result ≡ inside x n side }
{
    (0 <= x) & (x + n as i64 <= side as i64)
}

// The modes of a window: in scratch whatever the plane has, or a part of the plane where the window is inside it. Orders ask for one by its name.
pub const ALWAYS_SCRATCH: u32 = 0;

pub const PLANE_IF_INSIDE: u32 = 1;

// An area is the plane's own.
fn is_planes(a: Area, mode: u32) -> bool
    requires { Ranged a }
    ensures { result ≡ is_planes mode a }
{
    (mode == PLANE_IF_INSIDE) & (inside(a.left, a.ww, a.iw) & inside(a.top, a.wh, a.ih))
}

// The places that h rows of w take at the stride s.
fn part_len(s: usize, w: usize, h: usize) -> usize
    requires { (s ≤ 32768) × (w ≤ 128) × (1 ≤ h) × (h ≤ 128) }
    ensures { result ≡ part_len s w h }
{
    (h - 1) * s + w
}

// Where an area that passed its tests lies, in the plane or in scratch.
pub fn locate(a: Area, mode: u32, plane_stride: usize) -> Part
    requires { Ranged a × (plane_stride ≤ 32768) }
    ensures { result ≡ area_at a mode plane_stride }
{
    if is_planes(a, mode) {
        let place = up64(a.top) * plane_stride + up64(a.left);
        let len = part_len(plane_stride, a.ww, a.wh);
        return Part {
            number: 0,
            buffer: 1,
            place,
            stride: plane_stride,
            len,
        };
    }
    let len = part_len(a.ww, a.ww, a.wh);
    Part {
        number: 0,
        buffer: 2,
        place: 0,
        stride: a.ww,
        len,
    }
}

// Refused: the number and zeros.
pub fn no_part(number: u32) -> Part
    ensures { result ≡ no_part number }
{
    Part {
        number,
        buffer: 0,
        place: 0,
        stride: 0,
        len: 0,
    }
}

// A window's call, but for the pixels.
pub fn find_window(
    lent: Reference,
    pl: usize,
    kind: u32,
    w: usize,
    h: usize,
    x: i64,
    y: i64,
    mode: u32,
    sl: usize,
) -> Part
    ensures { (plane : List ℕ) → length plane ≡ pl → result ≡ window_of (lent_of lent plane) (asked kind w h x y mode) sl }
{
    if let Err(why) = check_window(lent, pl, kind, w, h, x, y, mode, sl) {
        return no_part(why.number());
    }
    let a = area_of(lent, kind, w, h, x, y);
    locate(a, mode, lent.stride)
}

// An area that passed its tests: where it lies, and scratch filled where the plane hasn't got it.
pub fn fetch<P: Sample>(
    a: Area,
    plane: &[P],
    plane_stride: usize,
    mode: u32,
    scratch: &mut [P],
) -> Part
    requires { Fetch a (length scratch.old) a.ww (length plane.now) (top_down 0 plane_stride) }
    ensures { (result ≡ area_at a mode plane_stride)
        × (P.values scratch.new ≡ area_fetched a (P.values plane.now) plane_stride mode (P.values scratch.old)) }
{
    let part = locate(a, mode, plane_stride);
    if part.buffer == 2 {
        let s = top_down(0, plane_stride);
        edge_rows(a, scratch, a.ww, plane, s);
    }
    part
}

// A window's call: its tests, and the window where none refuses.
pub fn window<P: Sample>(
    lent: Reference,
    plane: &[P],
    kind: u32,
    w: usize,
    h: usize,
    x: i64,
    y: i64,
    mode: u32,
    scratch: &mut [P],
) -> Part
    ensures { (result ≡ window_of (lent_of lent (P.values plane.now)) (asked kind w h x y mode) (length scratch.old))
        × (P.values scratch.new ≡ scratch_of result.number (lent_of lent (P.values plane.now)) (asked kind w h x y mode) (P.values scratch.old)) }
{
    if let Err(why) = check_window(lent, plane.len(), kind, w, h, x, y, mode, scratch.len()) {
        return no_part(why.number());
    }
    let a = area_of(lent, kind, w, h, x, y);
    fetch(a, plane, lent.stride, mode, scratch)
}

// The part that an answer names, empty where it was refused.
pub fn pick<'a, P: Sample>(p: Part, plane: &'a [P], scratch: &'a [P]) -> &'a [P]
    requires { PartIn p (length plane.now) (length scratch.now) }
    ensures { P.values result.now ≡ part_of p (P.values plane.now) (P.values scratch.now) }
{
    let buffer = p.buffer;
    let start = p.place;
    let len = p.len;
    if buffer == 1 {
        return &plane[start..start + len];
    }
    if buffer == 2 {
        return &scratch[start..start + len];
    }
    &plane[0..0]
}

// The part itself: a second call on the same arguments, after the first has filled scratch.
pub fn window_part<'a, P: Sample>(
    lent: Reference,
    plane: &'a [P],
    kind: u32,
    w: usize,
    h: usize,
    x: i64,
    y: i64,
    mode: u32,
    scratch: &'a [P],
) -> &'a [P]
    ensures { P.values result.now ≡ part_of (window_of (lent_of lent (P.values plane.now)) (asked kind w h x y mode) (length scratch.now))
        (P.values plane.now) (P.values scratch.now) }
{
    let part = find_window(lent, plane.len(), kind, w, h, x, y, mode, scratch.len());
    pick(part, plane, scratch)
}

pub fn hv_window<P: Sample>(
    luma_w: usize,
    luma_h: usize,
    ss_hor: bool,
    ss_ver: bool,
    plane_no: u32,
    plane: &[P],
    plane_stride: usize,
    kind: u32,
    w: usize,
    h: usize,
    x: i64,
    y: i64,
    mode: u32,
    scratch: &mut [P],
    buffer: &mut u32,
    place: &mut usize,
    stride: &mut usize,
    len: &mut usize,
) -> u32
    ensures { WindowAnswer
        (record {
          frame = record { luma_w = luma_w; luma_h = luma_h; ss_hor = ss_hor; ss_ver = ss_ver };
          plane_no = plane_no;
          plane = (P.values plane.now);
          stride = plane_stride;
        })
        (record { kind = kind; w = w; h = h; x = x; y = y; mode = mode })
        (P.values scratch.old) result buffer.new place.new stride.new len.new (P.values scratch.new) }
{
    let f = Frame {
        luma_w,
        luma_h,
        ss_hor,
        ss_ver,
    };
    let lent = Reference {
        frame: f,
        plane_no,
        stride: plane_stride,
    };
    let part = window(lent, plane, kind, w, h, x, y, mode, scratch);
    *buffer = part.buffer;
    *place = part.place;
    *stride = part.stride;
    *len = part.len;
    part.number
}
