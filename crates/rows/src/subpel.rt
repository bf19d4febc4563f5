// 8-tap filters, and rows by them. A filter's taps stand at place o, o + step, ..
// o + 7 step: step is 1 along a row, a stride down a column.
ghost use Rattle.std.specs.Prelude.{◌≡◌, true, ◌+◌, ◌*◌, ◌^◌, ◌<◌, ◌≤◌, pos, nat_abs, ◌+ℤ◌, ◌*ℤ◌, length, get_or};
ghost use Rattle.std.specs.Int.Signed.{mag, shr_z};
ghost use Rattle.rows.specs.Numbers.{at, low16, minus16, px};
ghost use Rattle.rows.specs.Places.{row_of};
ghost use Rattle.rows.specs.Subpel.{filter, S, tapped};
ghost use Rattle.rows.specs.inner.Subpel.{Near, Short, Rounds};
ghost use Rattle.rows.specs.Numbers as numbers;

use crate::near::{near_highs_i16, near_i16, near_kept, near_lows_i16};
use crate::numbers::{keep16, wrapping_sub16};
use crate::pixel::Pixel;

// How a row is made of taps: they stand step apart, and their sum S is rounded to (S + r) >> n.
#[derive(Clone, Copy)]
pub struct Way {
    pub step: usize,
    pub r: u32,
    pub n: u32,
}

// acc + f x, of which eight fit: |x| is at most 2^16, |f| at most 2^7
pub fn tap(acc: i32, f: i8, x: i32) -> i32
    requires { (mag acc < 2 ^ 30) × (nat_abs x ≤ 2 ^ 16) }
    ensures { (result ≡ acc +ℤ f *ℤ x) × (mag (f *ℤ x) < 2 ^ 24) }
{
    acc + f as i32 * x
}

// The same of an intermediate.
pub fn tap_i16(acc: i32, f: i8, x: i16) -> i32
    requires { mag acc < 2 ^ 30 }
    ensures { (result ≡ acc +ℤ f *ℤ x) × (mag (f *ℤ x) < 2 ^ 24) }
{
    tap(acc, f, x as i32)
}

// Filter number n of a table.
pub fn eight(table: &[i8], n: usize) -> [i8; 8]
    requires { 8 * n + 8 ≤ length table.now }
    ensures { result ≡ filter table.now n }
{
    let mut f = [0i8; 8];
    for t in 0..8 {
        f[t] = table[8 * n + t];
    }
    f
}

// The filter sum S of intermediates; that of pixels is `Pixel::taps`.
pub fn taps_i16(src: &[i16], o: usize, step: usize, f: &[i8]) -> i32
    requires { (o + 7 * step < length src.now) × (8 ≤ length f.now) }
    ensures { (result ≡ S f.now (λ t. at src.now (o + t * step))) × (mag result < 2 ^ 30) }
{
    let mut s: i32 = 0;
    for j in 0..8 {
        s = tap_i16(s, f[j], src[o + j * step]);
    }
    s
}

// (s + r) >> n
pub fn rounded(s: i32, r: u32, n: u32) -> i32
    requires { (mag s < 2 ^ 30) × (r < 2 ^ 20) × (n < 32) }
    ensures { result ≡ shr_z (s +ℤ pos r) (2 ^ n) }
{
    (s + r as i32) >> n
}

// The low sixteen bits of (s + r) >> n, minus the bias, wrapping.
pub fn kept(s: i32, r: u32, n: u32, bias: i16) -> i16
    requires { (mag s < 2 ^ 30) × (r < 2 ^ 20) × (n < 32) }
    ensures { result ≡ minus16 (low16 (shr_z (s +ℤ pos r) (2 ^ n))) bias }
{
    wrapping_sub16(keep16(rounded(s, r, n)), bias)
}

// S of intermediates, the near way if near says so.
pub fn sum_i16(src: &[i16], o: usize, step: usize, f: &[i8; 8], near: bool) -> i32
    requires { (o + 7 * step < length src.now) × (near ≡ true → Near f.now) }
    ensures { (result ≡ S f.now (λ t. at src.now (o + t * step))) × (mag result < 2 ^ 30) }
{
    if near {
        near_i16(src, o, step, f)
    } else {
        taps_i16(src, o, step, f)
    }
}

// An intermediate from intermediates, the near way if near says so.
fn mid_prep_px(mid: &[i16], o: usize, f: &[i8; 8], near: bool, by: Way, bias: i16) -> i16
    requires { (o + 7 * by.step < length mid.now) × Rounds by.r by.n × (near ≡ true → Short f.now by.r by.n) }
    ensures { result ≡ minus16 (low16 (tapped f.now by.r by.n (λ t. at mid.now (o + t * by.step)))) bias }
{
    if near {
        near_kept(
            near_highs_i16(mid, o, by.step, f),
            near_lows_i16(mid, o, by.step, f),
            by.r,
            by.n,
            bias,
        )
    } else {
        kept(taps_i16(mid, o, by.step, f), by.r, by.n, bias)
    }
}

// Intermediates from intermediates, the near way or the far way: near is passed as a constant, so the compiler makes a loop of each.
pub fn mid_prep_by(
    tmp: &mut [i16],
    mid: &[i16],
    o: usize,
    f: &[i8; 8],
    near: bool,
    by: Way,
    bias: i16,
)
    requires { (o + length tmp.old + 7 * by.step ≤ length mid.now) × Rounds by.r by.n × (near ≡ true → Short f.now by.r by.n) }
    ensures { tmp.new ≡ row_of (length tmp.old)
        (λ i. minus16 (low16 (tapped f.now by.r by.n (λ t. at mid.now (o + i + t * by.step)))) bias) }
{
    let w = tmp.len();
    for i in 0..w {
        let v = mid_prep_px(mid, o + i, f, near, by, bias);
        tmp[i] = v;
    }
}

// Intermediates from intermediates: prep, the second pass.
pub fn mid_prep_row(
    tmp: &mut [i16],
    mid: &[i16],
    o: usize,
    step: usize,
    f: &[i8; 8],
    near: bool,
    r: u32,
    n: u32,
    bias: i16,
)
    requires { (o + length tmp.old + 7 * step ≤ length mid.now) × (r ≤ 127) × (n ≤ 8) × (near ≡ true → Near f.now) }
    ensures { tmp.new ≡ row_of (length tmp.old)
        (λ i. minus16 (low16 (tapped f.now r n (λ t. at mid.now (o + i + t * step)))) bias) }
{
    let by = Way { step, r, n };
    if tmp.len() < 8 {
        mid_prep_by(tmp, mid, o, f, false, by, bias);
    } else if near {
        mid_prep_by(tmp, mid, o, f, true, by, bias);
    } else {
        mid_prep_by(tmp, mid, o, f, false, by, bias);
    }
}

// A row of eight pixels by near taps, all made before the first is written: so the compiler tests for no overlap.
fn tap_eight<P: Pixel>(dst: &mut [P], src: &[P], o: usize, f: &[i8; 8], by: Way, max: u16)
    requires { (length dst.old ≡ 8) × (o + 8 + 7 * by.step ≤ length src.now) × P.near_ok f.now by.r by.n × Rounds by.r by.n × P.max_ok max }
    ensures { P.values dst.new ≡ row_of (length dst.old)
        (λ i. numbers.clip max (tapped f.now by.r by.n (λ t. px (P.values src.now) (o + i + t * by.step)))) }
{
    let mut line = [P::default(); 8];
    for i in 0..8 {
        line[i] = P::clip(P::rounded_taps(src, o + i, f, true, by), max);
    }
    for j in 0..8 {
        dst[j] = line[j];
    }
}

// The same of intermediates.
fn tap_eight_mid<P: Pixel>(tmp: &mut [i16], src: &[P], o: usize, f: &[i8; 8], by: Way, bias: i16)
    requires { (length tmp.old ≡ 8) × (o + 8 + 7 * by.step ≤ length src.now) × Short f.now by.r by.n }
    ensures { tmp.new ≡ row_of (length tmp.old)
        (λ i. minus16 (low16 (tapped f.now by.r by.n (λ t. px (P.values src.now) (o + i + t * by.step)))) bias) }
{
    let mut line = [0i16; 8];
    for i in 0..8 {
        line[i] = P::tap_mid_px(src, o + i, f, true, by, bias);
    }
    for j in 0..8 {
        tmp[j] = line[j];
    }
}

// Pixels from pixels, the near way or the far way: near is passed as a constant, so the compiler makes a loop of each.
fn tap_by<P: Pixel>(dst: &mut [P], src: &[P], o: usize, f: &[i8; 8], near: bool, by: Way, max: u16)
    requires { (o + length dst.old + 7 * by.step ≤ length src.now) × Rounds by.r by.n
        × (near ≡ true → P.near_ok f.now by.r by.n) × P.max_ok max }
    ensures { P.values dst.new ≡ row_of (length dst.old)
        (λ i. numbers.clip max (tapped f.now by.r by.n (λ t. px (P.values src.now) (o + i + t * by.step)))) }
{
    let w = dst.len();
    for i in 0..w {
        let v = P::clip(P::rounded_taps(src, o + i, f, near, by), max);
        dst[i] = v;
    }
}

// Pixels from pixels: put, one axis. That the taps are near is asked once for a block, and handed down.
pub fn tap_row<P: Pixel>(
    dst: &mut [P],
    src: &[P],
    o: usize,
    step: usize,
    f: &[i8; 8],
    near: bool,
    r: u32,
    n: u32,
    max: u16,
)
    requires { (o + length dst.old + 7 * step ≤ length src.now) × (r ≤ 127) × (n ≤ 8) × (near ≡ true → Near f.now) × P.max_ok max }
    ensures { P.values dst.new ≡ row_of (length dst.old)
        (λ i. numbers.clip max (tapped f.now r n (λ t. px (P.values src.now) (o + i + t * step)))) }
{
    let by = Way { step, r, n };
    let w = dst.len();
    if P::few(w) {
        tap_by(dst, src, o, f, false, by, max);
    } else if near {
        if P::by_eight(w) {
            tap_eight(dst, src, o, f, by, max);
        } else {
            tap_by(dst, src, o, f, true, by, max);
        }
    } else {
        tap_by(dst, src, o, f, false, by, max);
    }
}

// Intermediates from pixels, the near way or the far way.
fn tap_mid_by<P: Pixel>(
    tmp: &mut [i16],
    src: &[P],
    o: usize,
    f: &[i8; 8],
    near: bool,
    by: Way,
    bias: i16,
)
    requires { (o + length tmp.old + 7 * by.step ≤ length src.now) × Rounds by.r by.n × (near ≡ true → Short f.now by.r by.n) }
    ensures { tmp.new ≡ row_of (length tmp.old)
        (λ i. minus16 (low16 (tapped f.now by.r by.n (λ t. px (P.values src.now) (o + i + t * by.step)))) bias) }
{
    let w = tmp.len();
    for i in 0..w {
        let v = P::tap_mid_px(src, o + i, f, near, by, bias);
        tmp[i] = v;
    }
}

// Intermediates from pixels: prep, one axis, and with the bias 0 the first pass of two.
pub fn tap_mid_row<P: Pixel>(
    tmp: &mut [i16],
    src: &[P],
    o: usize,
    step: usize,
    f: &[i8; 8],
    near: bool,
    r: u32,
    n: u32,
    bias: i16,
)
    requires { (o + length tmp.old + 7 * step ≤ length src.now) × (r ≤ 127) × (n ≤ 8) × (near ≡ true → Near f.now) }
    ensures { tmp.new ≡ row_of (length tmp.old)
        (λ i. minus16 (low16 (tapped f.now r n (λ t. px (P.values src.now) (o + i + t * step)))) bias) }
{
    let by = Way { step, r, n };
    let w = tmp.len();
    if P::few_mids(w) {
        tap_mid_by(tmp, src, o, f, false, by, bias);
    } else if near {
        if P::by_eight(w) {
            tap_eight_mid(tmp, src, o, f, by, bias);
        } else {
            tap_mid_by(tmp, src, o, f, true, by, bias);
        }
    } else {
        tap_mid_by(tmp, src, o, f, false, by, bias);
    }
}

// Pixels from intermediates, the near way or the far way.
pub fn mid_by<P: Pixel>(
    dst: &mut [P],
    mid: &[i16],
    o: usize,
    f: &[i8; 8],
    near: bool,
    by: Way,
    max: u16,
)
    requires { (o + length dst.old + 7 * by.step ≤ length mid.now) × Rounds by.r by.n × (near ≡ true → Near f.now) × P.max_ok max }
    ensures { P.values dst.new ≡ row_of (length dst.old)
        (λ i. numbers.clip max (tapped f.now by.r by.n (λ t. at mid.now (o + i + t * by.step)))) }
{
    let w = dst.len();
    for i in 0..w {
        dst[i] = P::clip(
            rounded(sum_i16(mid, o + i, by.step, f, near), by.r, by.n),
            max,
        );
    }
}

// Pixels from intermediates: put, the second pass.
pub fn mid_row<P: Pixel>(
    dst: &mut [P],
    mid: &[i16],
    o: usize,
    step: usize,
    f: &[i8; 8],
    near: bool,
    r: u32,
    n: u32,
    max: u16,
)
    requires { (o + length dst.old + 7 * step ≤ length mid.now) × (r < 2 ^ 20) × (n < 32) × (near ≡ true → Near f.now) × P.max_ok max }
    ensures { P.values dst.new ≡ row_of (length dst.old)
        (λ i. numbers.clip max (tapped f.now r n (λ t. at mid.now (o + i + t * step)))) }
{
    let by = Way { step, r, n };
    if P::few_mids(dst.len()) {
        mid_by(dst, mid, o, f, false, by, max);
    } else if near {
        mid_by(dst, mid, o, f, true, by, max);
    } else {
        mid_by(dst, mid, o, f, false, by, max);
    }
}
