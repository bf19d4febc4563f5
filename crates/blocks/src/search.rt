// sad_nxn and sad_refine_mv: sums of absolute differences, and the search by them.
ghost use Rattle.std.specs.Prelude.{◌≡◌, ◌+◌, ◌*◌, ◌/◌, ◌^◌, ◌≤◌, ◌<◌, ltb, eqb, pos, nat_abs, ◌+ℤ◌, ◌-ℤ◌, true, length};
ghost use Rattle.rows.specs.Numbers.{up};
ghost use Rattle.rows.specs.Search.{better, answer, sad, sad_at, visit, through, steps, search, refine};
ghost use Rattle.blocks.specs.Refuse.{told, lowest};
ghost use Rattle.blocks.specs.inner.Ready.{Block, Blocks, Wider, DepthRange};
ghost use Rattle.blocks.specs.Search.{sads_tests, SadAnswer, RefineAnswer};
ghost use Rattle.blocks.specs.inner.Search.{best_of, stand_at};
ghost use Rattle.blocks.specs.inner.Source.{pixel_in};

use crate::numbers::up32;
use crate::refuse::{Refusal, holds_rows, needed, size_ok, stride_ok};
use crate::sample::Sample;
use crate::source::{Stand, row_first, top_down};
use rows::search::sad_row;

// The best sum so far and its offset, once one is found.
#[derive(Clone, Copy)]
pub struct Best {
    pub sum: u32,
    pub dx: i32,
    pub dy: i32,
}

// The offset that is answered.
#[derive(Clone, Copy)]
pub struct Offset {
    pub dx: i32,
    pub dy: i32,
}

// Two buffers that are compared: the depth of their pixels, where their rows stand, and the block's size.
#[derive(Clone, Copy)]
pub struct Compared {
    pub depth: u32,
    pub s0: Stand,
    pub s1: Stand,
    pub w: usize,
    pub h: usize,
}

// m more columns and rows than the block are held, 0 or 8: so the sizes are tested before anything is added to them.
#[tactic(auto, using(crate::proofs::Laws::Calls::Refuse::size_met), unfolding(crate::specs::Refuse::need))]
pub fn check_sads(
    m: usize,
    deep: bool,
    l0: usize,
    s0: usize,
    l1: usize,
    s1: usize,
    w: usize,
    h: usize,
) -> Result<(), Refusal>
    requires { m ≤ 8 }
    ensures { told result ≡ lowest (sads_tests m deep l0 s0 l1 s1 w h) }
{
    needed(size_ok(64, w), Refusal::Size)?;
    needed(size_ok(64, h), Refusal::Size)?;
    let row = w + m;
    let rows = h + m;
    needed(stride_ok(row, s0), Refusal::Stride)?;
    needed(stride_ok(row, s1), Refusal::Stride)?;
    needed(deep, Refusal::Number)?;
    needed(holds_rows(l0, s0, row, rows), Refusal::Read)?;
    needed(holds_rows(l1, s1, row, rows), Refusal::Read)
}

// Column or row 2 + d of the one buffer, and 2 - d of the other.
fn ahead(d: i32) -> usize
    requires { nat_abs d ≤ 2 }
    ensures { (result ≡ up (pos 2 +ℤ d)) × (result ≤ 4) }
{
    (2 + d) as usize
}

fn behind(d: i32) -> usize
    requires { nat_abs d ≤ 2 }
    ensures { (result ≡ up (pos 2 -ℤ d)) × (result ≤ 4) }
{
    (2 - d) as usize
}

// The rows of a block that begins at column x of row y.
fn stand_at(s: Stand, x: usize, y: usize) -> Stand
    requires { (y * s.back ≤ s.off) × (s.off + y * s.forth + x < 2 ^ 64) }
    ensures { result ≡ stand_at s x y }
{
    let off = row_first(s, y) + x;
    Stand {
        off,
        forth: s.forth,
        back: s.back,
    }
}

// The rows of the two blocks, where an offset starts them.
pub fn first_place(s: Stand, dx: i32, dy: i32) -> Stand
    requires { (4 * s.back ≤ s.off) × (s.off + 4 * s.forth + 4 < 2 ^ 64) × (nat_abs dx ≤ 2) × (nat_abs dy ≤ 2) }
    ensures { result ≡ stand_at s (up (pos 2 +ℤ dx)) (up (pos 2 +ℤ dy)) }
{
    stand_at(s, ahead(dx), ahead(dy))
}

pub fn second_place(s: Stand, dx: i32, dy: i32) -> Stand
    requires { (4 * s.back ≤ s.off) × (s.off + 4 * s.forth + 4 < 2 ^ 64) × (nat_abs dx ≤ 2) × (nat_abs dy ≤ 2) }
    ensures { result ≡ stand_at s (up (pos 2 -ℤ dx)) (up (pos 2 -ℤ dy)) }
{
    stand_at(s, behind(dx), behind(dy))
}

// dx and dy are both 0.
pub fn is_centre(dx: i32, dy: i32) -> bool
    ensures { result ≡ eqb (nat_abs dx + nat_abs dy) 0 }
{
    (dx == 0) & (dy == 0)
}

// The first strict minimum stays.
#[tactic(auto, unfolding(crate::specs::inner::Search::best_of, rows::specs::Search::better))]
pub fn take_better(b: Option<Best>, sum: u32, dx: i32, dy: i32) -> Option<Best>
    ensures { best_of result ≡ better (best_of b) sum (record { dx = dx; dy = dy }) }
{
    match b {
        Some(least) if least.sum <= sum => b,
        _ => Some(Best { sum, dx, dy }),
    }
}

// The offset of the best; the centre where nothing was found.
#[tactic(auto, unfolding(crate::specs::inner::Search::best_of, rows::specs::Search::answer))]
pub fn offset_of(b: Option<Best>) -> Offset
    ensures { record { dx = result.dx; dy = result.dy } ≡ answer (best_of b) }
{
    match b {
        Some(best) => Offset {
            dx: best.dx,
            dy: best.dy,
        },
        None => Offset { dx: 0, dy: 0 },
    }
}

// What implicit mode keeps of the centre's sum, and whether that is enough.
pub fn kept_of(sum: u32) -> u32
    requires { sum ≤ 2 ^ 28 }
    ensures { result ≡ (7 * sum + 7) / 2 ^ 3 }
{
    (7 * sum + 7) >> 3
}

pub fn is_enough(kept: u32, w: usize, h: usize) -> bool
    requires { Block w h }
    ensures { result ≡ ltb kept (2 * (w + 4) * (h + 4)) }
{
    (kept as usize) < 2 * (w + 4) * (h + 4)
}

// Rows 0, 2, 4 .. of two blocks, shifted right by depth - 8.
fn sad_sum<P: Sample>(
    depth: u32,
    p0: &[P],
    s0: Stand,
    p1: &[P],
    s1: Stand,
    w: usize,
    h: usize,
) -> u32
    requires { Blocks (length p0.now) s0 (length p1.now) s1 w h × DepthRange depth }
    ensures { (result ≡ sad depth (pixel_in (P.values p0.now) s0) (pixel_in (P.values p1.now) s1) w h) × (result ≤ 2 ^ 28) }
{
    let n = (h + 1) / 2;
    let mut s: u32 = 0;
    for r in 0..n {
        let y = 2 * r;
        let o0 = row_first(s0, y);
        let o1 = row_first(s1, y);
        s += sad_row(p0, o0, p1, o1, w);
    }
    s >> (depth - 8)
}

// Blocks of (w + 4) x (h + 4), compared at an offset.
fn sad_at<P: Sample>(p0: &[P], p1: &[P], n: Compared, dx: i32, dy: i32) -> u32
    requires { Wider (length p0.now) n.s0 (length p1.now) n.s1 n.w n.h × (nat_abs dx ≤ 2) × (nat_abs dy ≤ 2) × DepthRange n.depth }
    ensures { (result ≡ sad_at n.depth (pixel_in (P.values p0.now) n.s0) (pixel_in (P.values p1.now) n.s1) n.w n.h (record { dx = dx; dy = dy }))
        × (result ≤ 2 ^ 28) }
{
    let s0 = first_place(n.s0, dx, dy);
    let s1 = second_place(n.s1, dx, dy);
    sad_sum(n.depth, p0, s0, p1, s1, n.w + 4, n.h + 4)
}

// One offset more; the centre is skipped.
fn visit<P: Sample>(
    p0: &[P],
    p1: &[P],
    n: Compared,
    dx: i32,
    dy: i32,
    b: Option<Best>,
) -> Option<Best>
    requires { Wider (length p0.now) n.s0 (length p1.now) n.s1 n.w n.h × (nat_abs dx ≤ 2) × (nat_abs dy ≤ 2) × DepthRange n.depth }
    ensures { best_of result ≡ visit (sad_at n.depth (pixel_in (P.values p0.now) n.s0) (pixel_in (P.values p1.now) n.s1) n.w n.h) dy dx (best_of b) }
{
    if is_centre(dx, dy) {
        return b;
    }
    let sum = sad_at(p0, p1, n, dx, dy);
    take_better(b, sum, dx, dy)
}

// The offsets of one dy: dx from -2 to 2.
fn visit_row<P: Sample>(p0: &[P], p1: &[P], n: Compared, dy: i32, b: Option<Best>) -> Option<Best>
    requires { Wider (length p0.now) n.s0 (length p1.now) n.s1 n.w n.h × (nat_abs dy ≤ 2) × DepthRange n.depth }
    ensures { best_of result
        ≡ through steps (λ dx. visit (sad_at n.depth (pixel_in (P.values p0.now) n.s0) (pixel_in (P.values p1.now) n.s1) n.w n.h) dy dx) (best_of b) }
{
    let b = visit(p0, p1, n, -2, dy, b);
    let b = visit(p0, p1, n, -1, dy, b);
    let b = visit(p0, p1, n, 0, dy, b);
    let b = visit(p0, p1, n, 1, dy, b);
    visit(p0, p1, n, 2, dy, b)
}

// All offsets: dy from -2 to 2.
fn search<P: Sample>(p0: &[P], p1: &[P], n: Compared, b: Option<Best>) -> Option<Best>
    requires { Wider (length p0.now) n.s0 (length p1.now) n.s1 n.w n.h × DepthRange n.depth }
    ensures { best_of result ≡ search (sad_at n.depth (pixel_in (P.values p0.now) n.s0) (pixel_in (P.values p1.now) n.s1) n.w n.h) (best_of b) }
{
    let b = visit_row(p0, p1, n, -2, b);
    let b = visit_row(p0, p1, n, -1, b);
    let b = visit_row(p0, p1, n, 0, b);
    let b = visit_row(p0, p1, n, 1, b);
    visit_row(p0, p1, n, 2, b)
}

// Implicit mode: the centre at once where its sum is low enough, else the search from what is kept of it.
fn implicit<P: Sample>(p0: &[P], p1: &[P], n: Compared) -> Option<Best>
    requires { Wider (length p0.now) n.s0 (length p1.now) n.s1 n.w n.h × DepthRange n.depth }
    ensures { answer (best_of result) ≡ refine n.depth true (pixel_in (P.values p0.now) n.s0) (pixel_in (P.values p1.now) n.s1) n.w n.h }
{
    let sum = kept_of(sad_at(p0, p1, n, 0, 0));
    let b = Some(Best { sum, dx: 0, dy: 0 });
    if is_enough(sum, n.w, n.h) {
        return b;
    }
    search(p0, p1, n, b)
}

// Explicit mode begins with nothing found.
fn refine<P: Sample>(p0: &[P], p1: &[P], n: Compared, is_implicit: bool) -> Offset
    requires { Wider (length p0.now) n.s0 (length p1.now) n.s1 n.w n.h × DepthRange n.depth }
    ensures { record { dx = result.dx; dy = result.dy }
        ≡ refine n.depth is_implicit (pixel_in (P.values p0.now) n.s0) (pixel_in (P.values p1.now) n.s1) n.w n.h }
{
    if is_implicit {
        return offset_of(implicit(p0, p1, n));
    }
    offset_of(search(p0, p1, n, None))
}

pub fn hv_sad_nxn<P: Sample>(
    depth: i32,
    p0: &[P],
    p0_stride: usize,
    p1: &[P],
    p1_stride: usize,
    w: usize,
    h: usize,
    sum: &mut i32,
) -> Result<(), Refusal>
    ensures { SadAnswer (P.depth_ok depth) (up depth) (P.values p0.now) p0_stride (P.values p1.now) p1_stride w h (told result) sum.new }
{
    *sum = 0;
    check_sads(
        0,
        P::depth_ok(depth),
        p0.len(),
        p0_stride,
        p1.len(),
        p1_stride,
        w,
        h,
    )?;
    let s0 = top_down(0, p0_stride);
    let s1 = top_down(0, p1_stride);
    *sum = sad_sum(up32(depth), p0, s0, p1, s1, w, h) as i32;
    Ok(())
}

pub fn hv_sad_refine_mv<P: Sample>(
    depth: i32,
    p0: &[P],
    p0_stride: usize,
    p1: &[P],
    p1_stride: usize,
    w: usize,
    h: usize,
    is_implicit: bool,
    dx: &mut i32,
    dy: &mut i32,
) -> Result<(), Refusal>
    ensures { RefineAnswer (P.depth_ok depth) (up depth) (P.values p0.now) p0_stride (P.values p1.now) p1_stride w h is_implicit (told result) dx.new
        dy.new }
{
    *dx = 0;
    *dy = 0;
    check_sads(
        8,
        P::depth_ok(depth),
        p0.len(),
        p0_stride,
        p1.len(),
        p1_stride,
        w,
        h,
    )?;
    let s0 = top_down(0, p0_stride);
    let s1 = top_down(0, p1_stride);
    let n = Compared {
        depth: up32(depth),
        s0,
        s1,
        w,
        h,
    };
    let o = refine(p0, p1, n, is_implicit);
    let x = o.dx;
    let y = o.dy;
    *dx = x;
    *dy = y;
    Ok(())
}
