// put_bilin and prep_bilin: blocks between whole places, at fractions in sixteenths.
ghost use Rattle.std.specs.Prelude.{◌≡◌, ◌+◌, ◌-◌, ◌*◌, ◌≤◌, eqb, length, ◌^◌, pos, ◌+ℤ◌};
ghost use Rattle.rows.specs.Numbers.{at, low16, minus16, up, px, clip, half};
ghost use Rattle.rows.specs.Places.{pick, fill};
ghost use Rattle.rows.specs.Bilinear.{R, put_bilin, prep_bilin};
ghost use Rattle.rows.specs.inner.Bilinear.{bilin_at};
ghost use Rattle.blocks.specs.Refuse.{told, lowest, reads};
ghost use Rattle.blocks.specs.Subpel.{sixteenth_ok};
ghost use Rattle.blocks.specs.Bilinear.{bilin_tests, PutBilinAnswer, PrepBilinAnswer};
ghost use Rattle.blocks.specs.inner.Ready.{Block, Pairs, PairsIn, Bilin};
ghost use Rattle.blocks.specs.inner.Bilinear.{column_pairs};
ghost use Rattle.std.specs.Int.Signed.{shr_z};
ghost use Rattle.blocks.specs.inner.Source.{row_first, around_in};

use crate::copy::{prep_rows, put_rows};
use crate::groups::{carry, eight_at_most};
use crate::numbers::{on_axis, up32};
use crate::refuse::{DepthNumbers, Refusal, holds_rows, needed, size_ok, stride_ok};
use crate::sample::Sample;
use crate::source::{Stand, lower_row, row_first, rows_from, top_down};
use rows::bilinear::{mid_bilin_prep_row, mid_bilin_row, prep_bilin_row, put_bilin_row};
use rows::numbers::half_power;

// How a row is made of pairs: the second of each stands a step on and has f sixteenths, and their sum is rounded by n bits.
#[derive(Clone, Copy)]
pub struct PairWay {
    pub step: usize,
    pub f: u32,
    pub n: u32,
}

// A pixel's own rounding after that, of v to (v + r) >> k.
#[derive(Clone, Copy)]
pub struct LastRounding {
    pub r: u32,
    pub k: u32,
}

// The weight of the higher of two places in memory: with the last row first in memory it is the picture's first.
fn higher_weight(back: usize, g: u32) -> u32
    requires { g ≤ 15 }
    ensures { result ≡ pick (eqb back 0) g (16 - g) }
{
    if back == 0 { g } else { 16 - g }
}

// The pairs of two rows that stand below one another.
pub fn column_pairs(s: Stand, g: u32, n: u32) -> PairWay
    requires { (s.forth ≤ 32768) × (s.back ≤ 32768) × (g ≤ 15) }
    ensures { result ≡ column_pairs s g n }
{
    let f = higher_weight(s.back, g);
    PairWay {
        step: s.forth + s.back,
        f,
        n,
    }
}

// A fraction of sixteenths.
pub fn sixteenth_ok(f: i32) -> bool
    ensures { result ≡ sixteenth_ok f }
{
    (0 <= f) & (f <= 15)
}

// sl places from the block's first on hold those of each pixel, with a fraction on an axis where x or y is 1.
fn reads_pairs(sl: usize, s: usize, w: usize, h: usize, x: usize, y: usize) -> bool
    requires { Block w h × (x ≤ 1) × (y ≤ 1) }
    ensures { result ≡ reads sl 0 s w h 0 x 0 y }
{
    holds_rows(sl, s, w + x, h + y)
}

// deep is the outcome of the depth's test, true for bytes.
#[tactic(auto, using(crate::proofs::Laws::Calls::Ready::block_met), unfolding(crate::specs::Refuse::need))]
pub fn check_bilin(
    deep: bool,
    dl: usize,
    dst_stride: usize,
    sl: usize,
    src_stride: usize,
    w: usize,
    h: usize,
    mx: i32,
    my: i32,
) -> Result<(), Refusal>
    ensures { told result ≡ lowest (bilin_tests deep dl dst_stride sl src_stride w h mx my) }
{
    needed(size_ok(64, w), Refusal::Size)?;
    needed(size_ok(64, h), Refusal::Size)?;
    needed(stride_ok(w, dst_stride), Refusal::Stride)?;
    needed(stride_ok(w, src_stride), Refusal::Stride)?;
    needed(deep, Refusal::Number)?;
    needed(sixteenth_ok(mx), Refusal::Number)?;
    needed(sixteenth_ok(my), Refusal::Number)?;
    let x = on_axis(mx);
    let y = on_axis(my);
    needed(reads_pairs(sl, src_stride, w, h, x, y), Refusal::Read)?;
    needed(holds_rows(dl, dst_stride, w, h), Refusal::Written)
}

// Intermediates from those of a first pass, whose rows are 64 apart: prep, the second pass.
pub fn mid_bilin_prep_rows(
    tmp: &mut [i16],
    ts: usize,
    mid: &[i16],
    w: usize,
    h: usize,
    f: u32,
    n: u32,
    bias: i16,
)
    requires { Pairs (length tmp.old) ts (length mid.now) 64 64 w h f n }
    ensures { tmp.new
        ≡ fill tmp.old ts w h (λ i j. minus16 (low16 (R n (bilin_at (at mid.now) (j * 64 + i) 64 f))) bias) }
{
    for y in 0..h {
        let d = y * ts;
        mid_bilin_prep_row(&mut tmp[d..d + w], mid, y * 64, 64, f, n, bias);
    }
}

// Pixels from pixels: put, one axis, the second pixel of each place a step on.
fn put_bilin_axis<P: Sample>(
    dst: &mut [P],
    ds: usize,
    src: &[P],
    s: Stand,
    w: usize,
    h: usize,
    by: PairWay,
    last: LastRounding,
    max: u16,
)
    requires { PairsIn (length dst.old) ds (length src.now) s by.step w h by.f by.n × (by.n + last.k ≡ 4)
        × (half by.n + last.r * 2 ^ by.n ≤ 15) × P.max_ok max }
    ensures { P.values dst.new ≡ fill (P.values dst.old) ds w h
        (λ i j. clip max (shr_z (R by.n (bilin_at (px (P.values src.now)) (row_first s j + i) by.step by.f) +ℤ pos last.r) (2 ^ last.k))) }
{
    for y in 0..h {
        let o = row_first(s, y);
        let d = y * ds;
        put_bilin_row(
            &mut dst[d..d + w],
            src,
            o,
            by.step,
            by.f,
            by.n,
            last.r,
            last.k,
            max,
        );
    }
}

// Intermediates from pixels: prep, one axis, and with the bias 0 the first pass of two.
fn prep_bilin_axis<P: Sample>(
    tmp: &mut [i16],
    ts: usize,
    src: &[P],
    s: Stand,
    w: usize,
    h: usize,
    by: PairWay,
    bias: i16,
)
    requires { PairsIn (length tmp.old) ts (length src.now) s by.step w h by.f by.n × (by.n ≤ 4) }
    ensures { tmp.new ≡ fill tmp.old ts w h
        (λ i j. minus16 (low16 (R by.n (bilin_at (px (P.values src.now)) (row_first s j + i) by.step by.f))) bias) }
{
    for y in 0..h {
        let o = row_first(s, y);
        let d = y * ts;
        prep_bilin_row(&mut tmp[d..d + w], src, o, by.step, by.f, by.n, bias);
    }
}

// Pixels from the intermediates of a first pass, whose rows are 64 apart: put, the second pass.
fn mid_bilin_rows<P: Sample>(
    dst: &mut [P],
    ds: usize,
    mid: &[i16],
    w: usize,
    h: usize,
    f: u32,
    n: u32,
    max: u16,
)
    requires { Pairs (length dst.old) ds (length mid.now) 64 64 w h f n × P.max_ok max }
    ensures { P.values dst.new ≡ fill (P.values dst.old) ds w h (λ i j. clip max (R n (bilin_at (at mid.now) (j * 64 + i) 64 f))) }
{
    for y in 0..h {
        let d = y * ds;
        mid_bilin_row(&mut dst[d..d + w], mid, y * 64, 64, f, n, max);
    }
}

// Both axes, eight rows at a time: along the rows into intermediates, behind the row that was carried over, then down their columns.
fn put_bilin_both<P: Sample>(
    d: DepthNumbers,
    dst: &mut [P],
    ds: usize,
    src: &[P],
    s: Stand,
    w: usize,
    h: usize,
    f: u32,
    g: u32,
)
    requires { Bilin (length dst.old) ds (length src.now) s w h f g × (1 ≤ f) × (1 ≤ g) × P.bits_ok d.bits × P.max_ok d.max }
    ensures { P.values dst.new ≡ fill (P.values dst.old) ds w h (λ i j. put_bilin d.max d.bits f g (around_in 0 (P.values src.now) s i j)) }
{
    let b = P::bits_of(d.bits);
    let by = PairWay {
        step: 1,
        f,
        n: 4 - b,
    };
    let mut mid = [0i16; 576];
    prep_bilin_axis(&mut mid, 64, src, s, w, 1, by, 0);
    for group in 0..(h + 7) / 8 {
        let y = 8 * group;
        let k = eight_at_most(h - y);
        let next = rows_from(s, y + 1);
        prep_bilin_axis(&mut mid[64..576], 64, src, next, w, k, by, 0);
        let a = y * ds;
        let e = a + (k - 1) * ds + w;
        mid_bilin_rows(&mut dst[a..e], ds, &mid, w, k, g, 4 + b, d.max);
        if y + k < h {
            carry(&mut mid, 64);
        }
    }
}

// The same into intermediates.
fn prep_bilin_both<P: Sample>(
    d: DepthNumbers,
    tmp: &mut [i16],
    ts: usize,
    src: &[P],
    s: Stand,
    w: usize,
    h: usize,
    f: u32,
    g: u32,
)
    requires { Bilin (length tmp.old) ts (length src.now) s w h f g × (1 ≤ f) × (1 ≤ g) × P.bits_ok d.bits × P.bias_ok d.bias }
    ensures { tmp.new ≡ fill tmp.old ts w h (λ i j. prep_bilin d.bits d.bias f g (around_in 0 (P.values src.now) s i j)) }
{
    let b = P::bits_of(d.bits);
    let p = P::bias_of(d.bias);
    let by = PairWay {
        step: 1,
        f,
        n: 4 - b,
    };
    let mut mid = [0i16; 576];
    prep_bilin_axis(&mut mid, 64, src, s, w, 1, by, 0);
    for group in 0..(h + 7) / 8 {
        let y = 8 * group;
        let k = eight_at_most(h - y);
        let next = rows_from(s, y + 1);
        prep_bilin_axis(&mut mid[64..576], 64, src, next, w, k, by, 0);
        let a = y * ts;
        let e = a + (k - 1) * ts + w;
        mid_bilin_prep_rows(&mut tmp[a..e], ts, &mid, w, k, g, 4, p as i16);
        if y + k < h {
            carry(&mut mid, 64);
        }
    }
}

// The block in its four cases: both fractions, the horizontal alone, the vertical alone, none.
pub fn put_bilin_rows<P: Sample>(
    d: DepthNumbers,
    dst: &mut [P],
    ds: usize,
    src: &[P],
    s: Stand,
    w: usize,
    h: usize,
    f: u32,
    g: u32,
)
    requires { Bilin (length dst.old) ds (length src.now) s w h f g × P.bits_ok d.bits × P.max_ok d.max }
    ensures { P.values dst.new ≡ fill (P.values dst.old) ds w h (λ i j. put_bilin d.max d.bits f g (around_in 0 (P.values src.now) s i j)) }
{
    let b = P::bits_of(d.bits);
    if f != 0 {
        if g != 0 {
            put_bilin_both(d, dst, ds, src, s, w, h, f, g);
        } else {
            let by = PairWay {
                step: 1,
                f,
                n: 4 - b,
            };
            let last = LastRounding {
                r: half_power(b),
                k: b,
            };
            put_bilin_axis(dst, ds, src, s, w, h, by, last, d.max);
        }
    } else if g != 0 {
        let by = column_pairs(s, g, 4);
        let first = lower_row(s);
        let last = LastRounding { r: 0, k: 0 };
        put_bilin_axis(dst, ds, src, first, w, h, by, last, d.max);
    } else {
        put_rows(dst, ds, src, s, w, h);
    }
}

// The same into intermediates.
pub fn prep_bilin_rows<P: Sample>(
    d: DepthNumbers,
    tmp: &mut [i16],
    ts: usize,
    src: &[P],
    s: Stand,
    w: usize,
    h: usize,
    f: u32,
    g: u32,
)
    requires { Bilin (length tmp.old) ts (length src.now) s w h f g × P.bits_ok d.bits × P.bias_ok d.bias }
    ensures { tmp.new ≡ fill tmp.old ts w h (λ i j. prep_bilin d.bits d.bias f g (around_in 0 (P.values src.now) s i j)) }
{
    let b = P::bits_of(d.bits);
    let p = P::bias_of(d.bias);
    if f != 0 {
        if g != 0 {
            prep_bilin_both(d, tmp, ts, src, s, w, h, f, g);
        } else {
            let by = PairWay {
                step: 1,
                f,
                n: 4 - b,
            };
            prep_bilin_axis(tmp, ts, src, s, w, h, by, p as i16);
        }
    } else if g != 0 {
        let by = column_pairs(s, g, 4 - b);
        let first = lower_row(s);
        prep_bilin_axis(tmp, ts, src, first, w, h, by, p as i16);
    } else {
        prep_rows(d, tmp, ts, src, s, w, h);
    }
}

pub fn hv_put_bilin<P: Sample>(
    depth: i32,
    dst: &mut [P],
    dst_stride: usize,
    src: &[P],
    src_stride: usize,
    w: usize,
    h: usize,
    mx: i32,
    my: i32,
) -> Result<(), Refusal>
    ensures { PutBilinAnswer (P.depth_ok depth) (up depth) (P.values dst.old) dst_stride (P.values src.now) src_stride w h mx my (told result) (P.values dst.new) }
{
    check_bilin(
        P::depth_ok(depth),
        dst.len(),
        dst_stride,
        src.len(),
        src_stride,
        w,
        h,
        mx,
        my,
    )?;
    let d = P::depth_numbers(depth);
    let f = up32(mx);
    let g = up32(my);
    let s = top_down(0, src_stride);
    put_bilin_rows(d, dst, dst_stride, src, s, w, h, f, g);
    Ok(())
}

pub fn hv_prep_bilin<P: Sample>(
    depth: i32,
    tmp: &mut [i16],
    tmp_stride: usize,
    src: &[P],
    src_stride: usize,
    w: usize,
    h: usize,
    mx: i32,
    my: i32,
) -> Result<(), Refusal>
    ensures { PrepBilinAnswer (P.depth_ok depth) (up depth) tmp.old tmp_stride (P.values src.now) src_stride w h mx my (told result)
        tmp.new }
{
    check_bilin(
        P::depth_ok(depth),
        tmp.len(),
        tmp_stride,
        src.len(),
        src_stride,
        w,
        h,
        mx,
        my,
    )?;
    let d = P::depth_numbers(depth);
    let f = up32(mx);
    let g = up32(my);
    let s = top_down(0, src_stride);
    prep_bilin_rows(d, tmp, tmp_stride, src, s, w, h, f, g);
    Ok(())
}
