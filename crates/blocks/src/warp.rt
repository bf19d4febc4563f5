// warp_affine_8x8 and 8x8t: blocks of eight by eight, each pixel with filters of its own.
ghost use Rattle.std.specs.Prelude.{◌≡◌, suc, ◌+◌, ◌*◌, ◌/◌, ◌^◌, ◌≤◌, pos, nat_abs, length, ◌-◌};
ghost use Rattle.rows.specs.Numbers.{at, low16, minus16, px, clip, up};
ghost use Rattle.rows.specs.Places.{fill};
ghost use Rattle.rows.specs.Warp.{filter_no, is_there, every, all_there, warped, warp_put, warp_prep};
ghost use Rattle.blocks.specs.Refuse.{told, lowest, reads};
ghost use Rattle.blocks.specs.inner.Ready.{Rows, Pass, Margins, Warps};
ghost use Rattle.blocks.specs.Warp.{warp_tests, WarpAnswer, WarpTAnswer};
ghost use Rattle.blocks.specs.inner.Source.{around_in, pixel_in, Stood};
ghost use Rattle.blocks.specs.inner.Warp.{first_in};

use crate::numbers::within;
use crate::refuse::{DepthNumbers, Refusal, holds_rows, needed, stride_ok};
use crate::sample::Sample;
use crate::source::{Stand, corner, row_first, top_down};
use rows::copy::numbers_row;
use rows::warp::{Slope, filter_no, warp_column, warp_prep_row, warp_put_row};

// The four shears of a warped block, and its mx and my.
#[derive(Clone, Copy)]
pub struct Shears {
    pub a: i16,
    pub b: i16,
    pub c: i16,
    pub d: i16,
    pub mx: i32,
    pub my: i32,
}

// The filter of column c of row r of a pass is one of the table's n.
fn corner_there(m: i32, a: i16, b: i16, r: u32, c: u32, n: usize) -> bool
    requires { (nat_abs m ≤ 2 ^ 20) × (r ≤ 14) × (c ≤ 7) }
    ensures { result ≡ is_there n (filter_no m a b r c) }
{
    let f = filter_no(m, a, b, r, c);
    if f < 0 { false } else { (f as usize) < n }
}

// All filters of a pass whose last row is `last` are: its number grows or falls with the row and with the column, so the corners tell.
fn pass_there(m: i32, a: i16, b: i16, last: u32, n: usize) -> bool
    requires { (nat_abs m ≤ 2 ^ 20) × (last ≤ 14) }
    ensures { result ≡ every (suc last) (λ r. every 8 (λ i. is_there n (filter_no m a b r i))) }
{
    corner_there(m, a, b, 0, 0, n)
        & corner_there(m, a, b, 0, 7, n)
        & corner_there(m, a, b, last, 0, n)
        & corner_there(m, a, b, last, 7, n)
}

pub fn filters_there(m: Shears, n: usize) -> bool
    requires { (nat_abs m.mx ≤ 2 ^ 20) × (nat_abs m.my ≤ 2 ^ 20) }
    ensures { result ≡ all_there n m.mx m.my m.a m.b m.c m.d }
{
    pass_there(m.mx, m.a, m.b, 14, n) & pass_there(m.my, m.c, m.d, 7, n)
}

// The source holds the block at place o with its margins, exactly and without a sum that could wrap.
fn margins_held(sl: usize, o: usize, s: usize) -> bool
    requires { s ≤ 32768 }
    ensures { result ≡ reads sl o s 8 8 3 4 3 4 }
{
    if o < sl {
        (3 * s + 3 <= o) & (11 * s + 11 < sl - o)
    } else {
        false
    }
}

#[tactic(auto, using(crate::proofs::Laws::Calls::Refuse::stride_met, crate::proofs::Laws::Warp::Ready::place_met), unfolding(crate::specs::Refuse::need, crate::specs::Refuse::whole_filters, crate::specs::Warp::warp_place_ok))]
pub fn check_warp(
    deep: bool,
    dl: usize,
    dst_stride: usize,
    sl: usize,
    src_stride: usize,
    src_off: usize,
    m: Shears,
    tl: usize,
) -> Result<(), Refusal>
    ensures { told result ≡ lowest (warp_tests deep dl dst_stride sl src_stride src_off
        m.a m.b m.c m.d m.mx m.my tl) }
{
    needed(stride_ok(8, dst_stride), Refusal::Stride)?;
    needed(stride_ok(8, src_stride), Refusal::Stride)?;
    needed(deep, Refusal::Number)?;
    needed(within(m.mx, 1048576), Refusal::Number)?;
    needed(within(m.my, 1048576), Refusal::Number)?;
    needed(tl % 8 == 0, Refusal::Table)?;
    needed(filters_there(m, tl / 8), Refusal::Table)?;
    needed(margins_held(sl, src_off, src_stride), Refusal::Read)?;
    needed(holds_rows(dl, dst_stride, 8, 8), Refusal::Written)
}

// The second pass, as 8x8t has it.
pub fn warp_prep_rows(
    tmp: &mut [i16],
    tmp_stride: usize,
    mid: &[i16],
    table: &[i8],
    by: Slope,
    bias: u32,
)
    requires { Rows (length tmp.old) tmp_stride 8 8 × (length mid.now ≡ 120) × Pass (length table.now / 8) by.m by.a by.b 8
        × (bias ≤ 8192) }
    ensures { tmp.new ≡ fill tmp.old tmp_stride 8 8
        (λ i j. minus16 (low16 (warped table.now by.m by.a by.b 7 j i (λ v. at mid.now (j + i * 15 + v)))) (pos bias)) }
{
    for y in 0..8 {
        let d = y * tmp_stride;
        warp_prep_row(
            &mut tmp[d..d + 8],
            mid,
            y,
            table,
            by,
            y as u32,
            7,
            bias as i16,
        );
    }
}

// The first pass: fifteen rows of eight intermediates, column after column; the first tap of the first stands at place o.
fn warp_mid<P: Sample>(
    mid: &mut [i16],
    src: &[P],
    o: usize,
    s: usize,
    table: &[i8],
    by: Slope,
    bits: u32,
)
    requires { (length mid.old ≡ 120) × (o + 14 * s + 15 ≤ length src.now) × Pass (length table.now / 8) by.m by.a by.b 15
        × P.bits_ok bits }
    ensures { mid.new ≡ fill mid.old 15 15 8
        (λ r i. low16 (warped table.now by.m by.a by.b (7 - bits) r i (λ u. px (P.values src.now) (o + i + r * s + u)))) }
{
    let b = P::bits_of(bits);
    for x in 0..8 {
        let d = x * 15;
        warp_column(
            &mut mid[d..d + 15],
            src,
            o + x,
            s,
            table,
            by,
            x as u32,
            7 - b,
        );
    }
}

// Fifteen rows of fifteen pixels in the picture's order, by their numbers.
fn upright<P: Sample>(rows: &mut [u16], src: &[P], s: Stand)
    requires { (length rows.old ≡ 225) × Stood (length src.now) s 15 15 }
    ensures { rows.new ≡ fill rows.old 15 15 15 (pixel_in (P.values src.now) s) }
{
    for y in 0..15 {
        let o = row_first(s, y);
        let d = y * 15;
        numbers_row(&mut rows[d..d + 15], src, o);
    }
}

// The first pass of a source whose last row stands first in memory: its fifteen rows are copied before, into the picture's order. Out of line, so that the
// stack has room for the copy only where there is one.
#[inline(never)]
fn warp_turned<P: Sample>(mid: &mut [i16], src: &[P], s: Stand, table: &[i8], by: Slope, bits: u32)
    requires { (length mid.old ≡ 120) × Margins (length src.now) s × Pass (length table.now / 8) by.m by.a by.b 15 × P.bits_ok bits }
    ensures { mid.new
        ≡ fill mid.old 15 15 8 (first_in bits table.now by.m by.a by.b (P.values src.now) s) }
{
    let mut rows = [0u16; 225];
    let first = corner(s);
    upright(&mut rows, src, first);
    warp_mid(mid, &rows, 0, 15, table, by, P::bits_of(bits));
}

// The first pass wherever the rows stand.
fn warp_first<P: Sample>(mid: &mut [i16], src: &[P], s: Stand, table: &[i8], by: Slope, bits: u32)
    requires { (length mid.old ≡ 120) × Margins (length src.now) s × Pass (length table.now / 8) by.m by.a by.b 15 × P.bits_ok bits }
    ensures { mid.new
        ≡ fill mid.old 15 15 8 (first_in bits table.now by.m by.a by.b (P.values src.now) s) }
{
    if s.back == 0 {
        let first = corner(s);
        warp_mid(mid, src, first.off, s.forth, table, by, bits);
    } else {
        warp_turned(mid, src, s, table, by, bits);
    }
}

// The second pass, put.
fn warp_put_rows<P: Sample>(
    dst: &mut [P],
    dst_stride: usize,
    mid: &[i16],
    table: &[i8],
    by: Slope,
    bits: u32,
    max: u16,
)
    requires { Rows (length dst.old) dst_stride 8 8 × (length mid.now ≡ 120) × Pass (length table.now / 8) by.m by.a by.b 8
        × P.bits_ok bits × P.max_ok max }
    ensures { P.values dst.new ≡ fill (P.values dst.old) dst_stride 8 8
        (λ i j. clip max (low16 (warped table.now by.m by.a by.b (7 + bits) j i (λ v. at mid.now (j + i * 15 + v))))) }
{
    let b = P::bits_of(bits);
    for y in 0..8 {
        let d = y * dst_stride;
        warp_put_row(&mut dst[d..d + 8], mid, y, table, by, y as u32, 7 + b, max);
    }
}

pub fn warp_put<P: Sample>(
    d: DepthNumbers,
    dst: &mut [P],
    dst_stride: usize,
    src: &[P],
    s: Stand,
    m: Shears,
    warp: &[i8],
)
    requires { Warps (length dst.old) dst_stride (length src.now) s (length warp.now / 8) m
        × P.bits_ok d.bits × P.max_ok d.max }
    ensures { P.values dst.new ≡ fill (P.values dst.old) dst_stride 8 8
        (λ i j. warp_put d.max d.bits warp.now m.mx m.my m.a m.b m.c m.d i j
        (around_in 3 (P.values src.now) s i j)) }
{
    let first = Slope {
        m: m.mx,
        a: m.a,
        b: m.b,
    };
    let mut mid = [0i16; 120];
    warp_first(&mut mid, src, s, warp, first, d.bits);
    let second = Slope {
        m: m.my,
        a: m.c,
        b: m.d,
    };
    warp_put_rows(dst, dst_stride, &mid, warp, second, d.bits, d.max);
}

pub fn warp_prep<P: Sample>(
    d: DepthNumbers,
    tmp: &mut [i16],
    tmp_stride: usize,
    src: &[P],
    s: Stand,
    m: Shears,
    warp: &[i8],
)
    requires { Warps (length tmp.old) tmp_stride (length src.now) s (length warp.now / 8) m
        × P.bits_ok d.bits × P.bias_ok d.bias }
    ensures { tmp.new ≡ fill tmp.old tmp_stride 8 8
        (λ i j. warp_prep d.bits d.bias warp.now m.mx m.my m.a m.b m.c m.d i j
        (around_in 3 (P.values src.now) s i j)) }
{
    let first = Slope {
        m: m.mx,
        a: m.a,
        b: m.b,
    };
    let mut mid = [0i16; 120];
    warp_first(&mut mid, src, s, warp, first, d.bits);
    let second = Slope {
        m: m.my,
        a: m.c,
        b: m.d,
    };
    // Asked for its bound alone: where the bias is the constant that bytes have, the rows are compiled to a third more instructions.
    let _bounded = P::bias_of(d.bias);
    warp_prep_rows(tmp, tmp_stride, &mid, warp, second, d.bias);
}

pub fn hv_warp_affine_8x8<P: Sample>(
    depth: i32,
    dst: &mut [P],
    dst_stride: usize,
    src: &[P],
    src_stride: usize,
    src_off: usize,
    a: i16,
    b: i16,
    c: i16,
    d: i16,
    mx: i32,
    my: i32,
    warp: &[i8],
) -> Result<(), Refusal>
    ensures { WarpAnswer (P.depth_ok depth) (up depth) (P.values dst.old) dst_stride (P.values src.now) src_stride src_off a b c d mx my
        warp.now (told result) (P.values dst.new) }
{
    let m = Shears { a, b, c, d, mx, my };
    check_warp(
        P::depth_ok(depth),
        dst.len(),
        dst_stride,
        src.len(),
        src_stride,
        src_off,
        m,
        warp.len(),
    )?;
    let s = top_down(src_off, src_stride);
    warp_put(P::depth_numbers(depth), dst, dst_stride, src, s, m, warp);
    Ok(())
}

pub fn hv_warp_affine_8x8t<P: Sample>(
    depth: i32,
    tmp: &mut [i16],
    tmp_stride: usize,
    src: &[P],
    src_stride: usize,
    src_off: usize,
    a: i16,
    b: i16,
    c: i16,
    d: i16,
    mx: i32,
    my: i32,
    warp: &[i8],
) -> Result<(), Refusal>
    ensures { WarpTAnswer (P.depth_ok depth) (up depth) tmp.old tmp_stride (P.values src.now) src_stride src_off a b c d mx my
        warp.now (told result) tmp.new }
{
    let m = Shears { a, b, c, d, mx, my };
    check_warp(
        P::depth_ok(depth),
        tmp.len(),
        tmp_stride,
        src.len(),
        src_stride,
        src_off,
        m,
        warp.len(),
    )?;
    let s = top_down(src_off, src_stride);
    warp_prep(P::depth_numbers(depth), tmp, tmp_stride, src, s, m, warp);
    Ok(())
}
