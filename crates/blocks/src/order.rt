// Prediction orders: what one is, its number, and the functions for C, put and prep, which differ in the last call.
ghost use Rattle.std.specs.Prelude.{◌≡◌, true, List, ℕ, length, leb};
ghost use Rattle.blocks.specs.Refuse.{told, size_ok, stride_ok};
ghost use Rattle.blocks.specs.Edge.{place_ok};
ghost use Rattle.blocks.specs.Window.{plane_w, frame_sizes_ok, frame_names_ok};
ghost use Rattle.blocks.specs.Order.{kind_number, mode_of, kind_of, kind_size_ok, motion_ok, filters_ok, Tables, order_number, OrderPutAnswer, OrderPrepAnswer};
ghost use Rattle.blocks.specs.inner.Order.{setting_of, lengths_of};
ghost use Rattle.rows.specs.Numbers.{up};

use crate::bilinear::sixteenth_ok;
use crate::edge::place_ok;
use crate::frame::{
    Frame, Reference, frame_names_ok, frame_sizes_ok, plane_h, plane_w, window_side,
};
use crate::numbers::within;
use crate::order::kinds::{prep_kind, put_kind};
use crate::order::run::order_window;
use crate::refuse::{Layout, Refusal, holds_rows, needed, size_ok, stride_ok};
use crate::sample::Sample;
use crate::subpel::plan::{SubpelMotion, filter_in, fraction_ok, type_ok};
use crate::warp::{Shears, filters_there};
use crate::window::{ALWAYS_SCRATCH, PLANE_IF_INSIDE, pick};

pub mod kinds;
pub mod run;

// The motion of a bilinear block: the two fractions.
#[derive(Clone, Copy)]
pub struct BilinMotion {
    pub mx: i32,
    pub my: i32,
}

// How a block is predicted.
#[derive(Clone, Copy)]
pub enum Kind {
    Copy,
    Subpel(SubpelMotion),
    Bilinear(BilinMotion),
    Warp(Shears),
}

// The reference-plane place of the block's first pixel, whole motion included; the block's size; and how it is predicted.
#[derive(Clone, Copy)]
pub struct Order {
    pub x: i64,
    pub y: i64,
    pub w: usize,
    pub h: usize,
    pub kind: Kind,
}

// The lengths of the three tables of filters.
#[derive(Clone, Copy)]
pub struct TableLengths {
    pub subpel: usize,
    pub ext: usize,
    pub warp: usize,
}

// The kind that a call's numbers name.
pub fn kind_of(
    kind: u32,
    mx: i32,
    my: i32,
    filter_type: i32,
    a: i16,
    b: i16,
    c: i16,
    d: i16,
) -> Kind
    ensures { result ≡ kind_of kind mx my filter_type a b c d }
{
    if kind == 1 {
        return Kind::Subpel(SubpelMotion {
            mx,
            my,
            filter_type,
        });
    }
    if kind == 2 {
        return Kind::Bilinear(BilinMotion { mx, my });
    }
    if kind == 3 {
        return Kind::Warp(Shears { a, b, c, d, mx, my });
    }
    Kind::Copy
}

// The number of a kind, by which windows have their margins.
pub fn kind_number(k: Kind) -> u32
    ensures { result ≡ kind_number k }
{
    match k {
        Kind::Copy => 0,
        Kind::Subpel(_) => 1,
        Kind::Bilinear(_) => 2,
        Kind::Warp(_) => 3,
    }
}

// The mode of a kind's window: 8-tap and bilinear spare a copy where the plane has it, the others take the default.
pub fn mode_of(k: Kind) -> u32
    ensures { result ≡ mode_of k }
{
    match k {
        Kind::Copy => ALWAYS_SCRATCH,
        Kind::Subpel(_) => PLANE_IF_INSIDE,
        Kind::Bilinear(_) => PLANE_IF_INSIDE,
        Kind::Warp(_) => ALWAYS_SCRATCH,
    }
}

// A warped block is eight by eight.
fn kind_size_ok(k: Kind, w: usize, h: usize) -> bool
    ensures { result ≡ kind_size_ok k w h }
{
    match k {
        Kind::Copy => true,
        Kind::Subpel(_) => true,
        Kind::Bilinear(_) => true,
        Kind::Warp(_) => (w == 8) & (h == 8),
    }
}

// The kind's own numbers.
fn motion_ok(k: Kind) -> bool
    ensures { result ≡ motion_ok k }
{
    match k {
        Kind::Copy => true,
        Kind::Subpel(m) => {
            let t = m.filter_type;
            type_ok(t) & (fraction_ok(t, m.mx) & fraction_ok(t, m.my))
        }
        Kind::Bilinear(m) => sixteenth_ok(m.mx) & sixteenth_ok(m.my),
        Kind::Warp(s) => within(s.mx, 1048576) & within(s.my, 1048576),
    }
}

// The filters that the kind needs are in tables of el and wl numbers.
fn filters_ok(k: Kind, el: usize, wl: usize) -> bool
    requires { motion_ok k ≡ true }
    ensures { result ≡ filters_ok k el wl }
{
    match k {
        Kind::Copy => true,
        Kind::Subpel(m) => {
            let t = m.filter_type;
            filter_in(t, m.mx, el) & filter_in(t, m.my, el)
        }
        Kind::Bilinear(_) => true,
        Kind::Warp(s) => filters_there(s, wl / 8),
    }
}

#[tactic(auto, using(crate::proofs::Laws::Calls::Refuse::size_met), unfolding(crate::specs::Refuse::need, crate::specs::Refuse::whole_filters, crate::specs::Subpel::subpel_ok))]
pub fn check_order(
    deep: bool,
    named: bool,
    lent: Reference,
    pl: usize,
    o: Order,
    t: TableLengths,
    sl: usize,
    dl: usize,
    dst_stride: usize,
) -> Result<(), Refusal>
    ensures { (depth : ℕ) (plane : List ℕ) (tables : Tables) → length plane ≡ pl → lengths_of tables ≡ t
        → told result ≡ order_number (setting_of deep depth lent plane tables) named o sl dl dst_stride }
{
    let f = lent.frame;
    let n = lent.plane_no;
    let k = o.kind;
    let w = o.w;
    let h = o.h;
    needed(frame_sizes_ok(f, n), Refusal::Size)?;
    needed(size_ok(64, w), Refusal::Size)?;
    needed(size_ok(64, h), Refusal::Size)?;
    needed(kind_size_ok(k, w, h), Refusal::Size)?;
    needed(stride_ok(plane_w(f, n), lent.stride), Refusal::Stride)?;
    needed(stride_ok(w, dst_stride), Refusal::Stride)?;
    needed(deep, Refusal::Number)?;
    needed(frame_names_ok(f, n), Refusal::Number)?;
    needed(named, Refusal::Number)?;
    needed(place_ok(o.x), Refusal::Number)?;
    needed(place_ok(o.y), Refusal::Number)?;
    needed(motion_ok(k), Refusal::Number)?;
    needed(t.subpel == 600, Refusal::Table)?;
    needed(t.ext % 8 == 0, Refusal::Table)?;
    needed(t.warp % 8 == 0, Refusal::Table)?;
    needed(filters_ok(k, t.ext, t.warp), Refusal::Table)?;
    let ww = window_side(kind_number(k), w);
    let wh = window_side(kind_number(k), h);
    needed(
        holds_rows(pl, lent.stride, plane_w(f, n), plane_h(f, n)),
        Refusal::Read,
    )?;
    needed(holds_rows(sl, ww, ww, wh), Refusal::Written)?;
    needed(holds_rows(dl, dst_stride, w, h), Refusal::Written)
}

pub fn hv_order_put<P: Sample>(
    depth: i32,
    luma_w: usize,
    luma_h: usize,
    ss_hor: bool,
    ss_ver: bool,
    plane_no: u32,
    plane: &[P],
    plane_stride: usize,
    kind: u32,
    x: i64,
    y: i64,
    w: usize,
    h: usize,
    mx: i32,
    my: i32,
    filter_type: i32,
    a: i16,
    b: i16,
    c: i16,
    d: i16,
    subpel: &[i8],
    ext: &[i8],
    warp: &[i8],
    scratch: &mut [P],
    dst: &mut [P],
    dst_stride: usize,
) -> u32
    ensures { OrderPutAnswer
        (record {
          deep = P.depth_ok depth;
          depth = up depth;
          lent = record {
            frame = record { luma_w = luma_w; luma_h = luma_h; ss_hor = ss_hor; ss_ver = ss_ver };
            plane_no = plane_no;
            plane = (P.values plane.now);
            stride = plane_stride;
          };
          tables = record { subpel = subpel.entry.now; ext = ext.now; warp = warp.now };
        })
        (leb kind 3) (record { x = x; y = y; w = w; h = h; kind = kind_of kind mx my filter_type a b c d })
        (P.values scratch.old) (P.values dst.old) dst_stride result (P.values scratch.new) (P.values dst.new) }
{
    let f = Frame {
        luma_w,
        luma_h,
        ss_hor,
        ss_ver,
    };
    let lent = Reference {
        frame: f,
        plane_no,
        stride: plane_stride,
    };
    let k = kind_of(kind, mx, my, filter_type, a, b, c, d);
    let o = Order {
        x,
        y,
        w,
        h,
        kind: k,
    };
    let t = TableLengths {
        subpel: subpel.len(),
        ext: ext.len(),
        warp: warp.len(),
    };
    let part = order_window(
        P::depth_ok(depth),
        kind <= 3,
        lent,
        plane,
        o,
        t,
        scratch,
        dst.len(),
        dst_stride,
    );
    if part.number == 0 {
        let numbers = P::depth_numbers(depth);
        let l = Layout {
            w,
            h,
            src_stride: part.stride,
            dst_stride,
        };
        let src = pick(part, plane, scratch);
        put_kind(numbers, k, src, l, subpel, ext, warp, dst);
    }
    part.number
}

pub fn hv_order_prep<P: Sample>(
    depth: i32,
    luma_w: usize,
    luma_h: usize,
    ss_hor: bool,
    ss_ver: bool,
    plane_no: u32,
    plane: &[P],
    plane_stride: usize,
    kind: u32,
    x: i64,
    y: i64,
    w: usize,
    h: usize,
    mx: i32,
    my: i32,
    filter_type: i32,
    a: i16,
    b: i16,
    c: i16,
    d: i16,
    subpel: &[i8],
    ext: &[i8],
    warp: &[i8],
    scratch: &mut [P],
    tmp: &mut [i16],
    tmp_stride: usize,
) -> u32
    ensures { OrderPrepAnswer
        (record {
          deep = P.depth_ok depth;
          depth = up depth;
          lent = record {
            frame = record { luma_w = luma_w; luma_h = luma_h; ss_hor = ss_hor; ss_ver = ss_ver };
            plane_no = plane_no;
            plane = (P.values plane.now);
            stride = plane_stride;
          };
          tables = record { subpel = subpel.entry.now; ext = ext.now; warp = warp.now };
        })
        (leb kind 3) (record { x = x; y = y; w = w; h = h; kind = kind_of kind mx my filter_type a b c d })
        (P.values scratch.old) tmp.old tmp_stride result (P.values scratch.new) tmp.new }
{
    let f = Frame {
        luma_w,
        luma_h,
        ss_hor,
        ss_ver,
    };
    let lent = Reference {
        frame: f,
        plane_no,
        stride: plane_stride,
    };
    let k = kind_of(kind, mx, my, filter_type, a, b, c, d);
    let o = Order {
        x,
        y,
        w,
        h,
        kind: k,
    };
    let t = TableLengths {
        subpel: subpel.len(),
        ext: ext.len(),
        warp: warp.len(),
    };
    let part = order_window(
        P::depth_ok(depth),
        kind <= 3,
        lent,
        plane,
        o,
        t,
        scratch,
        tmp.len(),
        tmp_stride,
    );
    if part.number == 0 {
        let numbers = P::depth_numbers(depth);
        let l = Layout {
            w,
            h,
            src_stride: part.stride,
            dst_stride: tmp_stride,
        };
        let src = pick(part, plane, scratch);
        prep_kind(numbers, k, src, l, subpel, ext, warp, tmp);
    }
    part.number
}
