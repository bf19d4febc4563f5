// 8-tap sums in sixteen bits, for near taps: their sizes sum to 128 at most, as those of the Rust's subpel table do. Bytes in one sum, wider
// numbers in the sums of their high and of their low bytes; bilinear rows join such sums too.
ghost use Rattle.std.specs.Prelude.{◌≡◌, true, leb, ◌+◌, ◌*◌, ◌/◌, ◌^◌, ◌<◌, ◌≤◌, pos, nat_abs, ◌+ℤ◌, ◌*ℤ◌, length};
ghost use Rattle.std.specs.Int.Signed.{mag, shr_z};
ghost use Rattle.rows.specs.Numbers.{at, low16, minus16, mod_z, sum};
ghost use Rattle.rows.specs.Subpel.{S};
ghost use Rattle.rows.specs.inner.Subpel.{Near};

use crate::numbers::{keep16, wrapping_sub16};

// |v|
fn tap_size(v: i8) -> u32
    ensures { (result ≡ nat_abs v) × (result ≤ 128) }
{
    if v < 0 { (-1 - v) as u32 + 1 } else { v as u32 }
}

// Near taps: by them a sum of bytes, and each part of it, is of sixteen bits.
pub fn is_near(f: &[i8; 8]) -> bool
    ensures { result ≡ leb (sum 8 (λ t. nat_abs (at f.now t))) 128 }
{
    let mut s: u32 = 0;
    for j in 0..8 {
        s += tap_size(f[j]);
    }
    s <= 128
}

// acc + f x, in sixteen bits
fn near_tap(acc: i16, f: i8, x: i16) -> i16
    requires { (nat_abs acc + nat_abs f * 255 ≤ 32640) × (nat_abs x ≤ 255) }
    ensures { (result ≡ acc +ℤ f *ℤ x) × (nat_abs (f *ℤ x) ≤ nat_abs f * 255) }
{
    acc + f as i16 * x
}

// The same of a byte.
pub fn near_tap_u8(acc: i16, f: i8, x: u8) -> i16
    requires { nat_abs acc + nat_abs f * 255 ≤ 32640 }
    ensures { (result ≡ acc +ℤ f *ℤ pos x) × (nat_abs (f *ℤ pos x) ≤ nat_abs f * 255) }
{
    near_tap(acc, f, x as i16)
}

// The same of the high byte of a wider number.
fn near_high_i16(acc: i16, f: i8, x: i16) -> i16
    requires { nat_abs acc + nat_abs f * 255 ≤ 32640 }
    ensures { (result ≡ acc +ℤ f *ℤ shr_z x 256) × (nat_abs (f *ℤ shr_z x 256) ≤ nat_abs f * 255) }
{
    near_tap(acc, f, x >> 8)
}

// The same of its low byte.
fn near_low_i16(acc: i16, f: i8, x: i16) -> i16
    requires { nat_abs acc + nat_abs f * 255 ≤ 32640 }
    ensures { (result ≡ acc +ℤ f *ℤ pos (mod_z x 256)) × (nat_abs (f *ℤ pos (mod_z x 256)) ≤ nat_abs f * 255) }
{
    near_tap(acc, f, x - (x >> 8) * 256)
}

// A number from its high byte and its low one, or a sum from the sums of these.
pub fn near_whole(high: i16, low: i16) -> i32
    requires { (nat_abs high ≤ 32640) × (nat_abs low ≤ 32640) }
    ensures { (result ≡ high *ℤ pos 256 +ℤ low) × (mag result < 2 ^ 30) }
{
    high as i32 * 256 + low as i32
}

// The filter sum S of the high bytes of intermediates, by near taps.
pub fn near_highs_i16(src: &[i16], o: usize, step: usize, f: &[i8; 8]) -> i16
    requires { (o + 7 * step < length src.now) × Near f.now }
    ensures { (result ≡ S f.now (λ t. shr_z (at src.now (o + t * step)) 256)) × (nat_abs result ≤ 32640) }
{
    let mut s: i16 = 0;
    for j in 0..8 {
        s = near_high_i16(s, f[j], src[o + j * step]);
    }
    s
}

// The same of their low bytes.
pub fn near_lows_i16(src: &[i16], o: usize, step: usize, f: &[i8; 8]) -> i16
    requires { (o + 7 * step < length src.now) × Near f.now }
    ensures { (result ≡ S f.now (λ t. pos (mod_z (at src.now (o + t * step)) 256))) × (nat_abs result ≤ 32640) }
{
    let mut s: i16 = 0;
    for j in 0..8 {
        s = near_low_i16(s, f[j], src[o + j * step]);
    }
    s
}

// The filter sum S of intermediates by near taps.
pub fn near_i16(src: &[i16], o: usize, step: usize, f: &[i8; 8]) -> i32
    requires { (o + 7 * step < length src.now) × Near f.now }
    ensures { (result ≡ S f.now (λ t. at src.now (o + t * step))) × (mag result < 2 ^ 30) }
{
    near_whole(
        near_highs_i16(src, o, step, f),
        near_lows_i16(src, o, step, f),
    )
}

// (s + r) >> n, in sixteen bits: so the compiler doesn't widen the sum.
pub fn near_rounded(s: i16, r: u32, n: u32) -> i16
    requires { (nat_abs s ≤ 32640) × (r ≤ 127) × (n ≤ 15) }
    ensures { result ≡ shr_z (s +ℤ pos r) (2 ^ n) }
{
    (s + r as i16) >> n
}

// 256 high >> n, and part
fn near_join(high: i16, part: i16, n: u32) -> i32
    requires { (nat_abs high ≤ 32640) × (n ≤ 8) }
    ensures { result ≡ high *ℤ pos (256 / 2 ^ n) +ℤ part }
{
    let up = 256u32 >> n;
    high as i32 * up as i32 + part as i32
}

// The low sixteen bits of (256 high + low + r) >> n, minus the bias, wrapping: no step needs more than sixteen bits of the one before.
pub fn near_kept(high: i16, low: i16, r: u32, n: u32, bias: i16) -> i16
    requires { (nat_abs high ≤ 32640) × (nat_abs low ≤ 32640) × (r ≤ 127) × (n ≤ 8) }
    ensures { result ≡ minus16 (low16 (shr_z (high *ℤ pos 256 +ℤ low +ℤ pos r) (2 ^ n))) bias }
{
    wrapping_sub16(keep16(near_join(high, near_rounded(low, r, n), n)), bias)
}
