// Blocks from a reference of another size: their tests, and the last filtered rows. Positions are in 1/1024 of a pixel.
ghost use Rattle.std.specs.Prelude.{◌≡◌, ◌+◌, ◌-◌, ◌*◌, ◌%◌, ◌^◌, ◌≤◌, ◌<◌, length, get_or};
ghost use Rattle.rows.specs.Numbers.{up, at};
ghost use Rattle.rows.specs.Places.{row_of};
ghost use Rattle.rows.specs.Subpel.{family};
ghost use Rattle.rows.specs.Scaled.{sixteenth, in_family, prep_down};
ghost use Rattle.blocks.specs.Refuse.{told, lowest};
ghost use Rattle.blocks.specs.Scaled.{start_ok, step_ok, scaled_type_ok, column_read, reads_scaled, scaled_tests};
ghost use Rattle.blocks.specs.inner.Scaled.{scaled_plan, Turned, by_parity};

use crate::numbers::up32;
use crate::refuse::{Refusal, holds_rows, needed, reads_around, size_ok, stride_ok};
use crate::source::Stand;
use rows::bilinear::mid_bilin_prep_row;
use rows::subpel::{Way, eight, mid_prep_by};

pub mod kernels;

// The motion of a scaled block: where it starts in a pixel, and its steps.
#[derive(Clone, Copy)]
pub struct ScaledMotion {
    pub mx: i32,
    pub my: i32,
    pub dx: i32,
    pub dy: i32,
}

// What a call is lent: the lengths of what is written and read, and how they are laid out.
#[derive(Clone, Copy)]
pub struct Lent {
    pub dl: usize,
    pub dst_stride: usize,
    pub sl: usize,
    pub src_off: usize,
    pub src_stride: usize,
}

fn start_ok(v: i32) -> bool
    ensures { result ≡ start_ok v }
{
    (0 <= v) & (v <= 1023)
}

fn step_ok(v: i32) -> bool
    ensures { result ≡ step_ok v }
{
    (0 <= v) & (v <= 4096)
}

pub fn scaled_type_ok(filter_type: i32) -> bool
    ensures { result ≡ scaled_type_ok filter_type }
{
    (0 <= filter_type) & (filter_type <= 2)
}

// sl places hold what is fetched for the column at position p, in h rows and those around them.
fn column_read(taps: bool, sl: usize, o: usize, s: usize, h: usize, p: usize) -> bool
    requires { (o ≤ sl) × (s ≤ 32768) × (1 ≤ h) × (h ≤ 1024) × (p < 2 ^ 20) }
    ensures { result ≡ column_read taps sl o s h p }
{
    let x = p / 1024;
    if sl - o <= x {
        return false;
    }
    let c = o + x;
    if taps {
        let f = p % 1024 / 64;
        let on = if f == 0 { 0 } else { 1 };
        return reads_around(sl, c, s, 1, h, 3 * on, 4 * on, 3, 4);
    }
    reads_around(sl, c, s, 1, h, 0, 1, 0, 1)
}

// They hold what is fetched for every column.
fn reads_scaled(taps: bool, l: Lent, w: usize, h: usize, m: ScaledMotion) -> bool
    requires { (l.src_stride ≤ 32768) × (1 ≤ w) × (w ≤ 64) × (1 ≤ h) × (h ≤ 64) × (up m.mx ≤ 1023) × (up m.my ≤ 1023) × (up m.dx ≤ 4096)
        × (up m.dy ≤ 4096) }
    ensures { result ≡ reads_scaled taps l.sl l.src_off l.src_stride w h m.mx m.my m.dx m.dy }
{
    if l.sl < l.src_off {
        return false;
    }
    let rows = 1 + (up32(m.my) as usize + (h - 1) * up32(m.dy) as usize) / 1024;
    let start = up32(m.mx) as usize;
    let step = up32(m.dx) as usize;
    // Columns never fall: of bilinear's, the last reads farthest.
    if !taps {
        return column_read(
            false,
            l.sl,
            l.src_off,
            l.src_stride,
            rows,
            start + (w - 1) * step,
        );
    }
    let mut ok = true;
    for x in 0..w {
        ok = ok & column_read(taps, l.sl, l.src_off, l.src_stride, rows, start + x * step);
    }
    ok
}

// taps says that it is 8-tap; deep, typed and tabled are the outcomes of the tests of the depth, the type and the table.
#[tactic(auto, unfolding(crate::specs::Refuse::need))]
pub fn check_scaled(
    taps: bool,
    deep: bool,
    typed: bool,
    tabled: bool,
    l: Lent,
    w: usize,
    h: usize,
    m: ScaledMotion,
) -> Result<(), Refusal>
    ensures { told result ≡ lowest (scaled_tests taps deep typed tabled l.dl l.dst_stride l.sl l.src_off l.src_stride w h
        m.mx m.my m.dx m.dy) }
{
    needed(size_ok(64, w), Refusal::Size)?;
    needed(size_ok(64, h), Refusal::Size)?;
    needed(stride_ok(w, l.dst_stride), Refusal::Stride)?;
    needed(stride_ok(w, l.src_stride), Refusal::Stride)?;
    needed(deep, Refusal::Number)?;
    needed(start_ok(m.mx), Refusal::Number)?;
    needed(start_ok(m.my), Refusal::Number)?;
    needed(step_ok(m.dx), Refusal::Number)?;
    needed(step_ok(m.dy), Refusal::Number)?;
    needed(typed, Refusal::Number)?;
    needed(tabled, Refusal::Table)?;
    needed(reads_scaled(taps, l, w, h, m), Refusal::Read)?;
    needed(holds_rows(l.dl, l.dst_stride, w, h), Refusal::Written)
}

// How the rows of a scaled block are made: where those of the source stand, the positions of columns and rows, the families of their filters, and B.
#[derive(Clone, Copy)]
pub struct ScaledPlan {
    pub stand: Stand,
    pub mx: usize,
    pub my: usize,
    pub dx: usize,
    pub dy: usize,
    pub wide: usize,
    pub high: usize,
    pub bits: u32,
}

// A side of four or less has its own families.
fn family_of(filter_type: i32, side: usize) -> usize
    ensures { result ≡ family (up filter_type) side }
{
    let t = up32(filter_type) as usize;
    if side <= 4 { 3 + t % 2 } else { t }
}

pub fn scaled_plan(
    stand: Stand,
    m: ScaledMotion,
    filter_type: i32,
    w: usize,
    h: usize,
    bits: u32,
) -> ScaledPlan
    ensures { result ≡ scaled_plan stand m.mx m.my m.dx m.dy filter_type w h bits }
{
    let mx = up32(m.mx) as usize;
    let my = up32(m.my) as usize;
    let dx = up32(m.dx) as usize;
    let dy = up32(m.dy) as usize;
    let wide = family_of(filter_type, w);
    let high = family_of(filter_type, h);
    ScaledPlan {
        stand,
        mx,
        my,
        dx,
        dy,
        wide,
        high,
        bits,
    }
}

// The last eight filtered rows, 64 places apart, and their order: the t-th from the oldest stands at order[t].
#[derive(Clone, Copy)]
pub struct LastRows {
    pub rows: [i16; 512],
    pub order: [usize; 8],
}

// Before the first row.
pub fn no_rows() -> LastRows
    ensures { (result.order ≡ row_of 8 (λ t. t)) × (length result.rows ≡ 512) }
{
    let rows = [0i16; 512];
    let order = [0, 1, 2, 3, 4, 5, 6, 7];
    LastRows { rows, order }
}

// The place of the oldest becomes that of the newest.
pub fn turned(order: [usize; 8]) -> [usize; 8]
    ensures { result ≡ row_of 8 (λ t. get_or order ((t + 1) % 8) 0) }
{
    [
        order[1], order[2], order[3], order[4], order[5], order[6], order[7], order[0],
    ]
}

// The taps in the order in which the rows stand, the oldest standing at `first`: the sum is then one of eight rows side by side.
pub fn by_rows(f: [i8; 8], first: usize) -> [i8; 8]
    requires { first < 8 }
    ensures { result ≡ row_of 8 (λ k. at f ((k + 8 - first) % 8)) }
{
    let mut g = [0i8; 8];
    for k in 0..8 {
        g[k] = f[(k + 8 - first) % 8];
    }
    g
}

// Prep's last step: the block's row at position p, from the last eight. Without a fraction it is the fourth of them, which the shift by 4 leaves as it is.
pub fn prep_scaled_line(
    tmp: &mut [i16],
    rows: &[i16],
    order: [usize; 8],
    subpel: &[i8],
    family: usize,
    p: usize,
    bias: u32,
)
    requires { (length tmp.old ≤ 64) × (length rows.now ≡ 512) × Turned order × (length subpel.now ≡ 600) × (family ≤ 4) × (bias ≤ 8192) }
    ensures { tmp.new ≡ row_of (length tmp.old)
        (λ i. prep_down bias (in_family subpel.now family (sixteenth p)) (λ b. at rows.now (get_or order b 0 * 64 + i))) }
{
    let f = p % 1024 / 64;
    if f == 0 {
        mid_bilin_prep_row(tmp, rows, order[3] * 64, 0, 0, 4, bias as i16);
    } else {
        let g = by_rows(eight(subpel, 15 * family + (f - 1)), order[0]);
        let by = Way {
            step: 64,
            r: 32,
            n: 6,
        };
        mid_prep_by(tmp, rows, 0, &g, false, by, bias as i16);
    }
}

// The fraction between the two rows that position p is between, the row of an even number coming first.
pub fn by_parity(p: usize) -> u32
    ensures { result ≡ by_parity p }
{
    let f = (p % 1024 / 64) as u32;
    if p / 1024 % 2 == 0 { f } else { 16 - f }
}
