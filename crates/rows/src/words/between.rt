// What stands between two 16-bit pixels, in sixteen bits: the sums of their high and of their low bytes, joined. Each set writes this file by hand.
ghost use Rattle.std.specs.Prelude.{◌≡◌, ◌+◌, ◌*◌, ◌/◌, ◌<◌, ◌≤◌, min, pos, ◌+ℤ◌, length};
ghost use Rattle.std.specs.Int.Signed.{shr_z};
ghost use Rattle.rows.specs.Numbers.{px, clip, half, low16, minus16, mod_z};
ghost use Rattle.rows.specs.Bilinear.{R};
ghost use Rattle.rows.specs.inner.Bilinear.{bilin_at};
ghost use Rattle.rows.specs.inner.words.Pixel.{MaxOk};

use crate::bilinear::bilin_bytes;
use crate::near::near_kept;

// The sum of two 16-bit pixels is 256 times that of their high bytes, plus that of their low ones.
fn high_between(src: &[u16], p: usize, step: usize, f: u32) -> u16
    requires { (p + step < length src.now) × (f ≤ 15) }
    ensures { (pos result ≡ bilin_at (λ k. shr_z (px src.now k) 256) p step f) × (result ≤ 4080) }
{
    bilin_bytes(src[p] / 256, src[p + step] / 256, f)
}

fn low_between(src: &[u16], p: usize, step: usize, f: u32) -> u16
    requires { (p + step < length src.now) × (f ≤ 15) }
    ensures { (pos result ≡ bilin_at (λ k. pos (mod_z (px src.now k) 256)) p step f) × (result ≤ 4080) }
{
    bilin_bytes(src[p] % 256, src[p + step] % 256, f)
}

// (256 high + low + c) >> 4, no more than max: each step is of sixteen bits.
fn bilin_joined(high: u16, low: u16, c: u16, max: u16) -> u16
    requires { (high ≤ 4080) × (low ≤ 4080) × (c ≤ 15) }
    ensures { result ≡ min ((high * 256 + low + c) / 16) max }
{
    let v = high * 16 + ((low + c) >> 4);
    if v > max { max } else { v }
}

// The pixel of put: c is what both of its shifts add, which make one shift by 4.
pub fn put_between(src: &[u16], p: usize, step: usize, f: u32, c: u16, max: u16) -> u16
    requires { (p + step < length src.now) × (f ≤ 15) × (c ≤ 15) × MaxOk max }
    ensures { result ≡ clip max (shr_z (bilin_at (px src.now) p step f +ℤ pos c) 16) }
{
    let high = high_between(src, p, step, f);
    let low = low_between(src, p, step, f);
    bilin_joined(high, low, c, max)
}

// The intermediate of prep: r is half of 2^n.
pub fn prep_between(src: &[u16], p: usize, step: usize, f: u32, r: u32, n: u32, bias: i16) -> i16
    requires { (p + step < length src.now) × (f ≤ 15) × (r ≡ half n) × (n ≤ 4) }
    ensures { result ≡ minus16 (low16 (R n (bilin_at (px src.now) p step f))) bias }
{
    let high = high_between(src, p, step, f);
    let low = low_between(src, p, step, f);
    near_kept(high as i16, low as i16, r, n, bias)
}
