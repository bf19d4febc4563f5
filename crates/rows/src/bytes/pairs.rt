// The first pass of bilinear from a reference of another size: eight columns at a time, since bytes are weighed in sixteen bits.
// Each set writes this file by hand.
ghost use Rattle.std.specs.Prelude.{◌≡◌, ◌+◌, ◌-◌, ◌/◌, ◌%◌, ◌<◌, ◌≤◌, min, length, get_or};
ghost use Rattle.rows.specs.Numbers.{px, low16};
ghost use Rattle.rows.specs.Places.{row_of, splice};
ghost use Rattle.rows.specs.Bilinear.{R};
ghost use Rattle.rows.specs.inner.Bilinear.{bilin_at};
ghost use Rattle.rows.specs.inner.Scaled.{PairsFetched, pair_mid};
ghost use Rattle.rows.specs.inner.bytes.Pixel.{BitsOk};

use crate::bilinear::bilin_bytes;

// A byte and the next as one number: so they are fetched at once, and eight of them are weighed at once.
fn pair_at(src: &[u8], c: usize) -> u16
    requires { c + 1 < length src.now }
    ensures { (result % 256 ≡ get_or src.now c 0) × (result / 256 ≡ get_or src.now (c + 1) 0) }
{
    src[c] as u16 + 256 * src[c + 1] as u16
}

// Column i: the intermediate between its pixel and the next, at its fraction. It is 16 * 255 at most, so that nothing is cut.
fn scaled_bilin_px(src: &[u8], pixels: &[u8; 64], fractions: &[u8; 64], i: usize) -> i16
    requires { (i < 64) × (get_or pixels.now i 0 + 1 < length src.now) × (get_or fractions.now i 0 ≤ 15) }
    ensures { result ≡ pair_mid src.now pixels.now fractions.now 0 i }
{
    let p = pair_at(src, pixels[i] as usize);
    bilin_bytes(p % 256, p / 256, fractions[i] as u32) as i16
}

// Eight columns from column i on, all read before the first is written.
fn scaled_bilin_eight(
    mid: &mut [i16],
    src: &[u8],
    pixels: &[u8; 64],
    fractions: &[u8; 64],
    i: usize,
)
    requires { (i + 8 ≤ length mid.old) × (length mid.old ≤ 64) × PairsFetched (length src.now) 0 pixels.now fractions.now (length mid.old) }
    ensures { mid.new ≡ splice mid.old i (i + 8)
        (row_of 8 (λ k. pair_mid src.now pixels.now fractions.now 0 (i + k))) }
{
    let v0 = scaled_bilin_px(src, pixels, fractions, i);
    let v1 = scaled_bilin_px(src, pixels, fractions, i + 1);
    let v2 = scaled_bilin_px(src, pixels, fractions, i + 2);
    let v3 = scaled_bilin_px(src, pixels, fractions, i + 3);
    let v4 = scaled_bilin_px(src, pixels, fractions, i + 4);
    let v5 = scaled_bilin_px(src, pixels, fractions, i + 5);
    let v6 = scaled_bilin_px(src, pixels, fractions, i + 6);
    let v7 = scaled_bilin_px(src, pixels, fractions, i + 7);
    mid[i] = v0;
    mid[i + 1] = v1;
    mid[i + 2] = v2;
    mid[i + 3] = v3;
    mid[i + 4] = v4;
    mid[i + 5] = v5;
    mid[i + 6] = v6;
    mid[i + 7] = v7;
}

// Where the eight columns begin that are made next: at column i, or at the last eight.
fn eight_from(i: usize, w: usize) -> usize
    requires { (i < w) × (8 ≤ w) × (w ≤ 64) }
    ensures { result ≡ min i (w - 8) }
{
    if i + 8 <= w { i } else { w - 8 }
}

// A row of eight columns or more: the last eight may overlap those before.
fn scaled_bilin_eights(mid: &mut [i16], src: &[u8], pixels: &[u8; 64], fractions: &[u8; 64])
    requires { (8 ≤ length mid.old) × (length mid.old ≤ 64) × PairsFetched (length src.now) 0 pixels.now fractions.now (length mid.old) }
    ensures { mid.new ≡ row_of (length mid.old)
        (pair_mid src.now pixels.now fractions.now 0) }
{
    let w = mid.len();
    for k in 0..(w + 7) / 8 {
        scaled_bilin_eight(mid, src, pixels, fractions, eight_from(8 * k, w));
    }
}

// A row of fewer.
fn scaled_bilin_few(mid: &mut [i16], src: &[u8], pixels: &[u8; 64], fractions: &[u8; 64])
    requires { (length mid.old ≤ 64) × PairsFetched (length src.now) 0 pixels.now fractions.now (length mid.old) }
    ensures { mid.new ≡ row_of (length mid.old)
        (pair_mid src.now pixels.now fractions.now 0) }
{
    let w = mid.len();
    for i in 0..w {
        let v = scaled_bilin_px(src, pixels, fractions, i);
        mid[i] = v;
    }
}

// The first pass of bilinear: a row whose first pixel is at place o, by B, which is 2 or 4.
pub fn scaled_bilin_row(
    mid: &mut [i16],
    src: &[u8],
    o: usize,
    pixels: &[u8; 64],
    fractions: &[u8; 64],
    bits: u32,
)
    requires { (length mid.old ≤ 64) × (o ≤ length src.now) × PairsFetched (length src.now) o pixels.now fractions.now (length mid.old)
        × BitsOk bits × (bits % 2 ≡ 0) }
    ensures { mid.new ≡ row_of (length mid.old)
        (λ i. low16 (R (4 - bits) (bilin_at (px src.now) (o + get_or pixels.now i 0) 1 (get_or fractions.now i 0)))) }
{
    let part = &src[o..];
    if mid.len() < 8 {
        scaled_bilin_few(mid, part, pixels, fractions);
    } else {
        scaled_bilin_eights(mid, part, pixels, fractions);
    }
}
