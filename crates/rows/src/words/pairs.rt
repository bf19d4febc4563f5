// The first pass of bilinear from a reference of another size: one column after the other. Each set writes this file by hand.
ghost use Rattle.std.specs.Prelude.{◌≡◌, ◌+◌, ◌-◌, ◌%◌, ◌<◌, ◌≤◌, length, get_or};
ghost use Rattle.rows.specs.Numbers.{px, half, low16};
ghost use Rattle.rows.specs.Places.{row_of};
ghost use Rattle.rows.specs.Bilinear.{R};
ghost use Rattle.rows.specs.inner.Bilinear.{bilin_at};
ghost use Rattle.rows.specs.inner.Scaled.{PairsFetched, pair_mid};
ghost use Rattle.rows.specs.inner.words.Pixel.{BitsOk};

use crate::bilinear::bilin_sum;
use crate::subpel::kept;

// The intermediate between pixel c and the next, at the fraction f.
fn scaled_bilin_px(src: &[u16], c: usize, f: u8, r: u32, n: u32) -> i16
    requires { (c + 1 < length src.now) × (f ≤ 15) × (r ≡ half n) × (n ≤ 4) }
    ensures { result ≡ low16 (R n (bilin_at (px src.now) c 1 f)) }
{
    kept(
        bilin_sum(src[c] as i32, src[c + 1] as i32, f as u32),
        r,
        n,
        0,
    )
}

// A row of them, by the tables of its columns: r and n are passed as constants, so that the compiler makes a loop of each.
fn scaled_bilin_by(
    mid: &mut [i16],
    src: &[u16],
    pixels: &[u8; 64],
    fractions: &[u8; 64],
    r: u32,
    n: u32,
)
    requires { (length mid.old ≤ 64) × PairsFetched (length src.now) 0 pixels.now fractions.now (length mid.old) × (r ≡ half n) × (n ≤ 4) }
    ensures { mid.new ≡ row_of (length mid.old)
        (pair_mid src.now pixels.now fractions.now n) }
{
    let w = mid.len();
    for i in 0..w {
        let v = scaled_bilin_px(src, pixels[i] as usize, fractions[i], r, n);
        mid[i] = v;
    }
}

// The first pass of bilinear: a row whose first pixel is at place o, by B, which is 2 or 4.
pub fn scaled_bilin_row(
    mid: &mut [i16],
    src: &[u16],
    o: usize,
    pixels: &[u8; 64],
    fractions: &[u8; 64],
    bits: u32,
)
    requires { (length mid.old ≤ 64) × (o ≤ length src.now) × PairsFetched (length src.now) o pixels.now fractions.now (length mid.old)
        × BitsOk bits × (bits % 2 ≡ 0) }
    ensures { mid.new ≡ row_of (length mid.old)
        (λ i. low16 (R (4 - bits) (bilin_at (px src.now) (o + get_or pixels.now i 0) 1 (get_or fractions.now i 0)))) }
{
    let part = &src[o..];
    if bits == 4 {
        scaled_bilin_by(mid, part, pixels, fractions, 0, 0);
    } else {
        scaled_bilin_by(mid, part, pixels, fractions, 2, 2);
    }
}
