// Bilinear rows: the two pixels or intermediates of a place stand at o and o + step, step being 1 along a row, a stride down a column.
ghost use Rattle.std.specs.Prelude.{◌≡◌, ◌+◌, ◌*◌, ◌^◌, ◌<◌, ◌≤◌, pos, nat_abs, length, ◌+ℤ◌};
ghost use Rattle.std.specs.Int.Signed.{mag, shr_z};
ghost use Rattle.rows.specs.Numbers.{at, half, low16, minus16, px};
ghost use Rattle.rows.specs.Places.{row_of};
ghost use Rattle.rows.specs.Bilinear.{bilin, R};
ghost use Rattle.rows.specs.inner.Bilinear.{bilin_at};
ghost use Rattle.rows.specs.Numbers as numbers;

use crate::numbers::half_power;
use crate::pixel::Pixel;
use crate::subpel::{kept, rounded};

// 16a + f(b - a), within 2^22. A fraction that is seen to be a byte makes the product of bytes a short one.
pub fn bilin_sum(a: i32, b: i32, f: u32) -> i32
    requires { (nat_abs a ≤ 65535) × (nat_abs b ≤ 65535) × (f ≤ 15) }
    ensures { (result ≡ bilin a b f) × (mag result < 2 ^ 22) }
{
    let f = f as u8;
    16 * a + f as i32 * (b - a)
}

// The sum of two bytes in sixteen bits: 16 * 255 at most.
pub fn bilin_bytes(a: u16, b: u16, f: u32) -> u16
    requires { (a ≤ 255) × (b ≤ 255) × (f ≤ 15) }
    ensures { (pos result ≡ bilin (pos a) (pos b) f) × (result ≤ 4080) }
{
    let f = f as u16;
    (16 - f) * a + f * b
}

// 16a + f(b - a), as (16 - f)a + fb and within 2^22: intermediates, unlike their differences, are of sixteen bits, and so both products are short ones.
fn bilin_weighed(a: i32, b: i32, f: u32) -> i32
    requires { (nat_abs a ≤ 65535) × (nat_abs b ≤ 65535) × (f ≤ 16) }
    ensures { (result ≡ bilin a b f) × (mag result < 2 ^ 22) }
{
    let f = f as u8;
    (16 - f) as i32 * a + f as i32 * b
}

// The sum of two intermediates.
pub fn between_i16(mid: &[i16], p: usize, step: usize, f: u32) -> i32
    requires { (p + step < length mid.now) × (f ≤ 16) }
    ensures { (result ≡ bilin_at (at mid.now) p step f) × (mag result < 2 ^ 22) }
{
    bilin_weighed(mid[p] as i32, mid[p + step] as i32, f)
}

// R(n)
pub fn bilin_rnd(s: i32, n: u32) -> i32
    requires { (mag s < 2 ^ 22) × (n ≤ 8) }
    ensures { (result ≡ R n s) × (mag result < 2 ^ 23) }
{
    rounded(s, half_power(n), n)
}

// low16(R(n)), minus the bias, wrapping
fn bilin_kept(s: i32, n: u32, bias: i16) -> i16
    requires { (mag s < 2 ^ 22) × (n ≤ 8) }
    ensures { result ≡ minus16 (low16 (R n s)) bias }
{
    kept(s, half_power(n), n, bias)
}

// What put adds to a sum for both of its shifts, which make one shift by 4.
pub fn both_halves(n: u32, r: u32) -> u16
    requires { (n ≤ 4) × (half n + r * 2 ^ n ≤ 15) }
    ensures { result ≡ half n + r * 2 ^ n }
{
    (half_power(n) + (r << n)) as u16
}

// Intermediates from intermediates: prep, the second pass.
pub fn mid_bilin_prep_row(
    tmp: &mut [i16],
    mid: &[i16],
    o: usize,
    step: usize,
    f: u32,
    n: u32,
    bias: i16,
)
    requires { (o + length tmp.old + step ≤ length mid.now) × (f ≤ 16) × (n ≤ 8) }
    ensures { tmp.new ≡ row_of (length tmp.old)
        (λ i. minus16 (low16 (R n (bilin_at (at mid.now) (o + i) step f))) bias) }
{
    let w = tmp.len();
    for i in 0..w {
        let v = bilin_kept(between_i16(mid, o + i, step, f), n, bias);
        tmp[i] = v;
    }
}

// clip(R(n)): put's second pass
fn bilin_px<P: Pixel>(s: i32, n: u32, max: u16) -> P
    requires { (mag s < 2 ^ 22) × (n ≤ 8) × P.max_ok max }
    ensures { P.value result ≡ numbers.clip max (R n s) }
{
    P::clip(bilin_rnd(s, n), max)
}

// Pixels from pixels: put, one axis. With r = 2^(B-1) and k = B it is the horizontal case, with r = 0 and k = 0 the vertical one.
pub fn put_bilin_row<P: Pixel>(
    dst: &mut [P],
    src: &[P],
    o: usize,
    step: usize,
    f: u32,
    n: u32,
    r: u32,
    k: u32,
    max: u16,
)
    requires { (o + length dst.old + step ≤ length src.now) × (f ≤ 15) × (n + k ≡ 4) × (half n + r * 2 ^ n ≤ 15) × P.max_ok max }
    ensures { P.values dst.new ≡ row_of (length dst.old)
        (λ i. numbers.clip max (shr_z (R n (bilin_at (px (P.values src.now)) (o + i) step f) +ℤ pos r) (2 ^ k))) }
{
    let w = dst.len();
    let c = both_halves(n, r);
    for i in 0..w {
        let v = P::put_between(src, o + i, step, f, c, max);
        dst[i] = v;
    }
}

// Intermediates from pixels: prep, one axis, and with the bias 0 the first pass of two.
pub fn prep_bilin_row<P: Pixel>(
    tmp: &mut [i16],
    src: &[P],
    o: usize,
    step: usize,
    f: u32,
    n: u32,
    bias: i16,
)
    requires { (o + length tmp.old + step ≤ length src.now) × (f ≤ 15) × (n ≤ 4) }
    ensures { tmp.new ≡ row_of (length tmp.old)
        (λ i. minus16 (low16 (R n (bilin_at (px (P.values src.now)) (o + i) step f))) bias) }
{
    let w = tmp.len();
    let r = half_power(n);
    for i in 0..w {
        let v = P::prep_between(src, o + i, step, f, r, n, bias);
        tmp[i] = v;
    }
}

// Pixels from intermediates: put, the second pass.
pub fn mid_bilin_row<P: Pixel>(
    dst: &mut [P],
    mid: &[i16],
    o: usize,
    step: usize,
    f: u32,
    n: u32,
    max: u16,
)
    requires { (o + length dst.old + step ≤ length mid.now) × (f ≤ 16) × (n ≤ 8) × P.max_ok max }
    ensures { P.values dst.new
        ≡ row_of (length dst.old) (λ i. numbers.clip max (R n (bilin_at (at mid.now) (o + i) step f))) }
{
    let w = dst.len();
    for i in 0..w {
        let v = bilin_px(between_i16(mid, o + i, step, f), n, max);
        dst[i] = v;
    }
}
