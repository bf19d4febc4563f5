// Warp's filters, its rows of eight and its columns of fifteen intermediates, each with a filter of its own.
ghost use Rattle.std.specs.Prelude.{◌≡◌, true, ◌+◌, ◌*◌, ◌/◌, ◌^◌, ◌<◌, ◌≤◌, ℤ, pos, nat_abs, ◌+ℤ◌, length, ℕ};
ghost use Rattle.std.specs.Int.Signed.{mag, shr_z};
ghost use Rattle.rows.specs.Numbers.{at, half, low16, minus16, px, clip};
ghost use Rattle.rows.specs.Places.{row_of};
ghost use Rattle.rows.specs.Subpel.{filter};
ghost use Rattle.rows.specs.Warp.{filter_no, is_there, warped};
ghost use Rattle.rows.specs.inner.Warp.{RowThere};

use crate::numbers::{half_power, keep16, wrapping_sub16};
use crate::pixel::Pixel;
use crate::subpel::{rounded, taps_i16};

// Which filters a pass has: m for the first place, a more for each column, b more for each row, in parts of 1024.
#[derive(Clone, Copy)]
pub struct Slope {
    pub m: i32,
    pub a: i16,
    pub b: i16,
}

// 192 + ((m + c a + r b + 512) >> 10)
pub fn filter_no(m: i32, a: i16, b: i16, r: u32, c: u32) -> i32
    requires { (nat_abs m ≤ 2 ^ 20) × (r ≤ 14) × (c ≤ 7) }
    ensures { result ≡ filter_no m a b r c }
{
    192 + ((m + c as i32 * a as i32 + r as i32 * b as i32 + 512) >> 10)
}

// The filter of column c of row r, which is in the table.
pub fn filter_for<'a>(table: &'a [i8], by: Slope, r: u32, c: u32) -> &'a [i8]
    requires { (nat_abs by.m ≤ 2 ^ 20) × (r ≤ 14) × (c ≤ 7) × (is_there (length table.now / 8) (filter_no by.m by.a by.b r c) ≡ true) }
    ensures { result.now ≡ filter table.now (nat_abs (filter_no by.m by.a by.b r c)) }
{
    let q = 8 * filter_no(by.m, by.a, by.b, r, c) as usize;
    &table[q..q + 8]
}

// low16((S + half of 2^n) >> n), of a sum S
pub fn warp_kept(s: i32, n: u32) -> i16
    requires { (mag s < 2 ^ 30) × (1 ≤ n) × (n ≤ 11) }
    ensures { result ≡ low16 (shr_z (s +ℤ pos (half n)) (2 ^ n)) }
{
    keep16(rounded(s, half_power(n), n))
}

// "8x8t: low16, minus P".
pub fn warp_prep_row(
    tmp: &mut [i16],
    mid: &[i16],
    o: usize,
    table: &[i8],
    by: Slope,
    r: u32,
    n: u32,
    bias: i16,
)
    requires tmp_len { (length tmp.old ≡ 8) × (o + 7 * 15 + 8 ≤ length mid.now) × (nat_abs by.m ≤ 2 ^ 20) × (r ≤ 14) × (1 ≤ n) × (n ≤ 11) }
    requires row_there { RowThere (length table.now / 8) by.m by.a by.b r }
    ensures { tmp.new ≡ row_of 8
        (λ c. minus16 (low16 (warped table.now by.m by.a by.b n r c (λ t. at mid.now (o + c * 15 + t)))) bias) }
{
    for c in 0..8 {
        let f = filter_for(table, by, r, c as u32);
        let v = wrapping_sub16(warp_kept(taps_i16(mid, o + c * 15, 1, f), n), bias);
        tmp[c] = v;
    }
}

// The first pass: the fifteen rows of column c, side by side, as the second pass reads them; the first tap of the first stands at place o.
pub fn warp_column<P: Pixel>(
    mid: &mut [i16],
    src: &[P],
    o: usize,
    s: usize,
    table: &[i8],
    by: Slope,
    c: u32,
    n: u32,
)
    requires mid_len { (length mid.old ≡ 15) × (o + 14 * s + 8 ≤ length src.now) × (nat_abs by.m ≤ 2 ^ 20) × (c ≤ 7) × (1 ≤ n) × (n ≤ 11) }
    requires by_index { (r : ℕ) → r < 15 → is_there (length table.now / 8) (filter_no by.m by.a by.b r c) ≡ true }
    ensures { mid.new ≡ row_of 15
        (λ r. low16 (warped table.now by.m by.a by.b n r c (λ t. px (P.values src.now) (o + r * s + t)))) }
{
    for r in 0..15 {
        let f = filter_for(table, by, r as u32, c);
        let v = warp_kept(P::taps(src, o + r * s, 1, f), n);
        mid[r] = v;
    }
}

// The second pass: row r of 8, over columns of fifteen intermediates; the first tap of its first column at place o. "low16, then clip".
pub fn warp_put_row<P: Pixel>(
    dst: &mut [P],
    mid: &[i16],
    o: usize,
    table: &[i8],
    by: Slope,
    r: u32,
    n: u32,
    max: u16,
)
    requires dst_len { (length dst.old ≡ 8) × (o + 7 * 15 + 8 ≤ length mid.now) × (nat_abs by.m ≤ 2 ^ 20) × (r ≤ 14) × (1 ≤ n) × (n ≤ 11) × P.max_ok max }
    requires row_there { RowThere (length table.now / 8) by.m by.a by.b r }
    ensures { P.values dst.new ≡ row_of 8
        (λ c. clip max (low16 (warped table.now by.m by.a by.b n r c (λ t. at mid.now (o + c * 15 + t))))) }
{
    for c in 0..8 {
        let f = filter_for(table, by, r, c as u32);
        let v = P::clip(warp_kept(taps_i16(mid, o + c * 15, 1, f), n) as i32, max);
        dst[c] = v;
    }
}
