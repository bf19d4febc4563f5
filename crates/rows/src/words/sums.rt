// What the 8-tap sums of 16-bit pixels have of their own. By near taps they are made in sixteen bits: of the pixels' high bytes, and of their low ones.
ghost use Rattle.std.specs.Prelude.{◌≡◌, true, ◌+◌, ◌*◌, ◌^◌, ◌<◌, ◌≤◌, pos, nat_abs, ◌+ℤ◌, ◌*ℤ◌, length};
ghost use Rattle.std.specs.Int.Signed.{mag};
ghost use Rattle.rows.specs.Numbers.{px, low16, minus16};
ghost use Rattle.rows.specs.Subpel.{S, tapped};
ghost use Rattle.rows.specs.inner.Subpel.{Near, Short, Rounds, byte_of};
ghost use Rattle.rows.specs.inner.words.Sums.{NearOk};

use crate::near::{near_kept, near_tap_u8, near_whole};
use crate::subpel::{Way, kept, rounded, tap};

// acc + f x of a byte of a pixel, in sixteen bits.
fn near_byte(acc: i16, f: i8, x: u16, high: bool) -> i16
    requires { nat_abs acc + nat_abs f * 255 ≤ 32640 }
    ensures { (result ≡ acc +ℤ f *ℤ byte_of high (pos x)) × (nat_abs (f *ℤ byte_of high (pos x)) ≤ nat_abs f * 255) }
{
    if high {
        near_tap_u8(acc, f, (x / 256) as u8)
    } else {
        near_tap_u8(acc, f, (x % 256) as u8)
    }
}

// The filter sum S of high bytes, or of low ones, by near taps.
fn near_bytes(src: &[u16], o: usize, step: usize, f: &[i8; 8], high: bool) -> i16
    requires { (o + 7 * step < length src.now) × Near f.now }
    ensures { (result ≡ S f.now (λ t. byte_of high (px src.now (o + t * step)))) × (nat_abs result ≤ 32640) }
{
    let mut s: i16 = 0;
    for j in 0..8 {
        s = near_byte(s, f[j], src[o + j * step], high);
    }
    s
}

// The filter sum S by near taps.
fn near_sum(src: &[u16], o: usize, step: usize, f: &[i8; 8]) -> i32
    requires { (o + 7 * step < length src.now) × Near f.now }
    ensures { (result ≡ S f.now (λ t. px src.now (o + t * step))) × (mag result < 2 ^ 30) }
{
    near_whole(
        near_bytes(src, o, step, f, true),
        near_bytes(src, o, step, f, false),
    )
}

fn tap_pixel(acc: i32, f: i8, x: u16) -> i32
    requires { mag acc < 2 ^ 30 }
    ensures { (result ≡ acc +ℤ f *ℤ pos x) × (mag (f *ℤ pos x) < 2 ^ 24) }
{
    tap(acc, f, x as i32)
}

// The filter sum S by taps that aren't near: `taps`, as is faster where a row's loop takes several places at once.
fn far_taps(src: &[u16], o: usize, step: usize, f: &[i8; 8]) -> i32
    requires { o + 7 * step < length src.now }
    ensures { (result ≡ S f.now (λ t. px src.now (o + t * step))) × (mag result < 2 ^ 30) }
{
    let mut s: i32 = 0;
    for j in 0..8 {
        s = tap_pixel(s, f[j], src[o + j * step]);
    }
    s
}

// Whether a row of n pixels is too short for the near way, whose loop takes eight at once.
pub fn few(n: usize) -> bool
    ensures { result ≡ true → n < 8 }
{
    n < 8
}

// The same of a row of intermediates, or made of them.
pub fn few_mids(n: usize) -> bool
    ensures { result ≡ true → n < 8 }
{
    n < 8
}

// Whether a row of n pixels is made as eight at once: of 16-bit pixels none is, for the loop is faster.
pub fn by_eight(n: usize) -> bool
    ensures { result ≡ true → n ≡ 8 }
{
    false
}

// (S + r) >> n, the near way if near says so.
pub fn rounded_taps(src: &[u16], o: usize, f: &[i8; 8], near: bool, by: Way) -> i32
    requires { (o + 7 * by.step < length src.now) × Rounds by.r by.n × (near ≡ true → NearOk f.now by.r by.n) }
    ensures { result ≡ tapped f.now by.r by.n (λ t. px src.now (o + t * by.step)) }
{
    if near {
        rounded(near_sum(src, o, by.step, f), by.r, by.n)
    } else {
        rounded(far_taps(src, o, by.step, f), by.r, by.n)
    }
}

// An intermediate from pixels, the near way if near says so.
pub fn tap_mid_px(src: &[u16], o: usize, f: &[i8; 8], near: bool, by: Way, bias: i16) -> i16
    requires { (o + 7 * by.step < length src.now) × Rounds by.r by.n × (near ≡ true → Short f.now by.r by.n) }
    ensures { result ≡ minus16 (low16 (tapped f.now by.r by.n (λ t. px src.now (o + t * by.step)))) bias }
{
    if near {
        near_kept(
            near_bytes(src, o, by.step, f, true),
            near_bytes(src, o, by.step, f, false),
            by.r,
            by.n,
            bias,
        )
    } else {
        kept(far_taps(src, o, by.step, f), by.r, by.n, bias)
    }
}
