// What stands between two bytes, in one sum. Each set writes this file by hand.
ghost use Rattle.std.specs.Prelude.{◌≡◌, ◌+◌, ◌^◌, ◌<◌, ◌≤◌, pos, ◌+ℤ◌, length};
ghost use Rattle.std.specs.Int.Signed.{mag, shr_z};
ghost use Rattle.rows.specs.Numbers.{px, half, low16, minus16};
ghost use Rattle.rows.specs.Numbers as numbers;
ghost use Rattle.rows.specs.Bilinear.{R};
ghost use Rattle.rows.specs.inner.Bilinear.{bilin_at};
ghost use Rattle.rows.specs.inner.bytes.Pixel.{MaxOk};

use super::pixel::clip;
use crate::bilinear::bilin_sum;
use crate::subpel::{kept, rounded};

// The sum of two bytes.
fn between_u8(src: &[u8], p: usize, step: usize, f: u32) -> i32
    requires { (p + step < length src.now) × (f ≤ 15) }
    ensures { (result ≡ bilin_at (px src.now) p step f) × (mag result < 2 ^ 22) }
{
    bilin_sum(src[p] as i32, src[p + step] as i32, f)
}

// The pixel of put: c is what both of its shifts add, which make one shift by 4.
pub fn put_between(src: &[u8], p: usize, step: usize, f: u32, c: u16, max: u16) -> u8
    requires { (p + step < length src.now) × (f ≤ 15) × (c ≤ 15) × MaxOk max }
    ensures { result ≡ numbers.clip max (shr_z (bilin_at (px src.now) p step f +ℤ pos c) 16) }
{
    clip(rounded(between_u8(src, p, step, f), c as u32, 4), max)
}

// The intermediate of prep: r is half of 2^n.
pub fn prep_between(src: &[u8], p: usize, step: usize, f: u32, r: u32, n: u32, bias: i16) -> i16
    requires { (p + step < length src.now) × (f ≤ 15) × (r ≡ half n) × (n ≤ 4) }
    ensures { result ≡ minus16 (low16 (R n (bilin_at (px src.now) p step f))) bias }
{
    kept(between_u8(src, p, step, f), r, n, bias)
}
