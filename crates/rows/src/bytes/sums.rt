// What the 8-tap sums of bytes have of their own. By near taps they are made, and rounded, in sixteen bits.
ghost use Rattle.std.specs.Prelude.{◌≡◌, true, ◌+◌, ◌*◌, ◌^◌, ◌<◌, ◌≤◌, nat_abs, length};
ghost use Rattle.rows.specs.Numbers.{px, low16, minus16};
ghost use Rattle.rows.specs.Subpel.{S, tapped};
ghost use Rattle.rows.specs.inner.Subpel.{Near, Short, Rounds};
ghost use Rattle.rows.specs.inner.bytes.Sums.{NearOk};

use super::taps::taps;
use crate::near::{near_rounded, near_tap_u8};
use crate::numbers::{keep16, wrapping_sub16};
use crate::subpel::{Way, rounded};

// The filter sum S by near taps.
fn near_sum(src: &[u8], o: usize, step: usize, f: &[i8; 8]) -> i16
    requires { (o + 7 * step < length src.now) × Near f.now }
    ensures { (result ≡ S f.now (λ t. px src.now (o + t * step))) × (nat_abs result ≤ 32640) }
{
    let mut s: i16 = 0;
    for j in 0..8 {
        s = near_tap_u8(s, f[j], src[o + j * step]);
    }
    s
}

// Whether a row of n pixels is too short for the near way: of bytes none is, for the loop is faster.
pub fn few(n: usize) -> bool
    ensures { result ≡ true → n < 8 }
{
    false
}

// The same of a row of intermediates, or made of them: four are taken at once too.
pub fn few_mids(n: usize) -> bool
    ensures { result ≡ true → n < 8 }
{
    n < 4
}

// Whether a row of n pixels is made as eight at once.
pub fn by_eight(n: usize) -> bool
    ensures { result ≡ true → n ≡ 8 }
{
    n == 8
}

// (S + r) >> n, the near way if near says so.
pub fn rounded_taps(src: &[u8], o: usize, f: &[i8; 8], near: bool, by: Way) -> i32
    requires { (o + 7 * by.step < length src.now) × Rounds by.r by.n × (near ≡ true → NearOk f.now by.r by.n) }
    ensures { result ≡ tapped f.now by.r by.n (λ t. px src.now (o + t * by.step)) }
{
    if near {
        near_rounded(near_sum(src, o, by.step, f), by.r, by.n) as i32
    } else {
        rounded(taps(src, o, by.step, f), by.r, by.n)
    }
}

// An intermediate from pixels, the near way if near says so.
pub fn tap_mid_px(src: &[u8], o: usize, f: &[i8; 8], near: bool, by: Way, bias: i16) -> i16
    requires { (o + 7 * by.step < length src.now) × Rounds by.r by.n × (near ≡ true → Short f.now by.r by.n) }
    ensures { result ≡ minus16 (low16 (tapped f.now by.r by.n (λ t. px src.now (o + t * by.step)))) bias }
{
    wrapping_sub16(keep16(rounded_taps(src, o, f, near, by)), bias)
}
