// Frames: the sides of their planes, and the area of a plane that a block with its margins takes.
ghost use Rattle.std.specs.Prelude.{◌≡◌, List, ℕ, ◌^◌, ◌≤◌, nat_abs};
ghost use Rattle.blocks.specs.WMask.{flags_ok};
ghost use Rattle.blocks.specs.Window.{plane_side, plane_w, plane_h, frame_sizes_ok, frame_names_ok, before, after, window_side, window_start, area_of};
ghost use Rattle.blocks.specs.inner.Window.{lent_of, asked};

use crate::refuse::size_ok;

// Luma's sides and the subsampling flags.
#[derive(Clone, Copy)]
pub struct Frame {
    pub luma_w: usize,
    pub luma_h: usize,
    pub ss_hor: bool,
    pub ss_ver: bool,
}

// A plane of a frame, luma (0) or chroma (1), and the stride at which it is lent.
#[derive(Clone, Copy)]
pub struct Reference {
    pub frame: Frame,
    pub plane_no: u32,
    pub stride: usize,
}

// A window of ww columns and wh rows, from column `left` and row `top` of a plane of iw columns and ih rows on.
#[derive(Clone, Copy)]
pub struct Area {
    pub ww: usize,
    pub wh: usize,
    pub iw: usize,
    pub ih: usize,
    pub left: i64,
    pub top: i64,
}

// A side of the named plane: chroma has half of luma's, rounded up, where the flag is set.
fn plane_side(plane_no: u32, flag: bool, luma: usize) -> usize
    ensures { result ≡ plane_side plane_no flag luma }
{
    if (plane_no == 1) & flag {
        luma / 2 + luma % 2
    } else {
        luma
    }
}

pub fn plane_w(f: Frame, plane_no: u32) -> usize
    ensures { result ≡ plane_w f plane_no }
{
    plane_side(plane_no, f.ss_hor, f.luma_w)
}

pub fn plane_h(f: Frame, plane_no: u32) -> usize
    ensures { result ≡ plane_h f plane_no }
{
    plane_side(plane_no, f.ss_ver, f.luma_h)
}

// Luma's sides are in their range. The named plane then has no side of 0: half of 1, rounded up, is 1.
pub fn frame_sizes_ok(f: Frame, plane_no: u32) -> bool
    ensures { result ≡ frame_sizes_ok f plane_no }
{
    size_ok(16384, f.luma_w) & size_ok(16384, f.luma_h)
}

// ss_ver comes with ss_hor.
pub fn flags_ok(ss_hor: bool, ss_ver: bool) -> bool
    ensures { result ≡ flags_ok ss_hor ss_ver }
{
    ss_hor | !ss_ver
}

// ss_ver comes with ss_hor, and the plane is luma (0) or chroma (1).
pub fn frame_names_ok(f: Frame, plane_no: u32) -> bool
    ensures { result ≡ frame_names_ok f plane_no }
{
    flags_ok(f.ss_hor, f.ss_ver) & (plane_no <= 1)
}

// The margins of a kind's window.
fn before(kind: u32) -> usize
    ensures { result ≡ before kind }
{
    if (kind == 1) | (kind == 3) { 3 } else { 0 }
}

fn after(kind: u32) -> usize
    ensures { result ≡ after kind }
{
    if (kind == 1) | (kind == 3) {
        4
    } else if kind == 2 {
        1
    } else {
        0
    }
}

// A window's side, and its first column or row.
pub fn window_side(kind: u32, side: usize) -> usize
    requires { side ≤ 64 }
    ensures { result ≡ window_side kind side }
{
    before(kind) + side + after(kind)
}

fn window_start(kind: u32, x: i64) -> i64
    requires { nat_abs x ≤ 2 ^ 30 }
    ensures { result ≡ window_start kind x }
{
    x - before(kind) as i64
}

// The window of a block.
pub fn area_of(lent: Reference, kind: u32, w: usize, h: usize, x: i64, y: i64) -> Area
    requires { (w ≤ 64) × (h ≤ 64) × (nat_abs x ≤ 2 ^ 30) × (nat_abs y ≤ 2 ^ 30) }
    ensures { (plane : List ℕ) (mode : ℕ) → result ≡ area_of (lent_of lent plane) (asked kind w h x y mode) }
{
    let f = lent.frame;
    let ww = window_side(kind, w);
    let wh = window_side(kind, h);
    let iw = plane_w(f, lent.plane_no);
    let ih = plane_h(f, lent.plane_no);
    let left = window_start(kind, x);
    let top = window_start(kind, y);
    Area {
        ww,
        wh,
        iw,
        ih,
        left,
        top,
    }
}
