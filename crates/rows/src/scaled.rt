// Rows of intermediates from a reference of another size: each column has a position of its own, in 1/1024 of a pixel from the row's first.
ghost use Rattle.std.specs.Prelude.{◌≡◌, ◌≤◌, length, ℕ, ◌+◌, ◌%◌, ◌^◌, ◌<◌, get_or};
ghost use Rattle.rows.specs.inner.Scaled.{Steps, Tabled, eight_at, Fetched};
ghost use Rattle.rows.specs.Places.{row_of, splice};
ghost use Rattle.rows.specs.Scaled.{position, sixteenth, in_family, scaled_mid};

use crate::copy::prep_px;
use crate::numbers::half_power;
use crate::pixel::Pixel;
use crate::subpel::kept;

// Where the columns of a row stand: the first at start, each next a step on.
#[derive(Clone, Copy)]
pub struct Columns {
    pub start: usize,
    pub step: usize,
}

// The pixel that each of w columns is in, 252 at most, and its sixteenth: worked out once, since all rows of a block share them.
pub fn tabulate_columns(
    pixels: &mut [u8; 64],
    fractions: &mut [u8; 64],
    w: usize,
    start: usize,
    step: usize,
)
    requires { (length pixels.old ≡ 64) × (length fractions.old ≡ 64) × (w ≤ 64) × Steps start step }
    ensures { Tabled pixels.new fractions.new w start step }
{
    let first = start as u32;
    let by = step as u32;
    for i in 0..w {
        let p = first + i as u32 * by;
        pixels[i] = (p / 1024) as u8;
        fractions[i] = (p % 1024 / 64) as u8;
    }
}

// The intermediate at position p by the filter of its fraction, of a family of the table; at fraction 0 by none, and then of that pixel alone.
fn scaled_px<P: Pixel>(src: &[P], o: usize, table: &[i8], family: usize, p: usize, bits: u32) -> i16
    requires { Fetched (length src.now) o p × (length table.now ≡ 600) × (family ≤ 4) × (p < 2 ^ 20) × P.bits_ok bits }
    ensures { result ≡ scaled_mid bits (in_family table.now family (sixteenth p)) (eight_at (λ k. get_or (P.values src.now) k 0) o p) }
{
    let c = o + p / 1024;
    let f = p % 1024 / 64;
    if f == 0 {
        return prep_px(src[c], bits, 0);
    }
    let q = 8 * (15 * family + (f - 1));
    let n = 6 - P::bits_of(bits);
    kept(
        P::taps(src, c - 3, 1, &table[q..q + 8]),
        half_power(n),
        n,
        0,
    )
}

// The first pass of 8-tap: w columns of the row whose first pixel is at place o, into the rows from place q on.
pub fn scaled_row<P: Pixel>(
    rows: &mut [i16; 512],
    q: usize,
    w: usize,
    src: &[P],
    o: usize,
    table: &[i8],
    family: usize,
    by: Columns,
    bits: u32,
)
    requires rows_len { (length rows.old ≡ 512) × (q + w ≤ 512) × (w ≤ 64) × (length table.now ≡ 600) × (family ≤ 4)
        × Steps by.start by.step × P.bits_ok bits }
    requires by_index { (i : ℕ) → i < w → Fetched (length src.now) o (position by.start by.step i) }
    ensures { rows.new ≡ splice rows.old q (q + w) (row_of w
        (λ i. scaled_mid bits (in_family table.now family (sixteenth (position by.start by.step i)))
        (eight_at (λ k. get_or (P.values src.now) k 0) o (position by.start by.step i)))) }
{
    for i in 0..w {
        let v = scaled_px(src, o, table, family, by.start + i * by.step, bits);
        rows[q + i] = v;
    }
}
