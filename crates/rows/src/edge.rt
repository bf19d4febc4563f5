// emu_edge's row: the plane's first pixel, its pixels, its last pixel, on three parts of the row, so that no pixel asks for a clamp.
ghost use Rattle.std.specs.Prelude.{◌≡◌, ◌≤◌, ◌^◌, nat_abs, ◌-ℤ◌, ◌+◌, ◌-◌, pos, ◌+ℤ◌, length, get_or};
ghost use Rattle.rows.specs.Numbers.{clip};
ghost use Rattle.rows.specs.Places.{row_of};

use crate::copy::copy_row;
use crate::pixel::Pixel;

// How many of n columns from x on stand left of column m.
pub fn left_of(x: i64, m: i64, n: usize) -> usize
    requires { (nat_abs x ≤ 2 ^ 31) × (nat_abs m ≤ 2 ^ 31) × (n ≤ 16384) }
    ensures { result ≡ clip n (m -ℤ x) }
{
    let e = m - x;
    let top = n as i64;
    if e < 0 {
        0
    } else if e < top {
        e as usize
    } else {
        n
    }
}

// One pixel everywhere.
fn fill_row<P: Pixel>(dst: &mut [P], v: P)
    ensures { P.values dst.new ≡ row_of (length dst.old) (λ i. P.value v) }
{
    let n = dst.len();
    for i in 0..n {
        dst[i] = v;
    }
}

// A row of the endless plane from column x on: the plane's row has iw pixels from place o of src on.
pub fn edge_row<P: Pixel>(dst: &mut [P], src: &[P], o: usize, iw: usize, x: i64)
    requires { (1 ≤ iw) × (iw ≤ 16384) × (o + iw ≤ length src.now) × (length dst.old ≤ 16384) × (nat_abs x ≤ 2 ^ 31) }
    ensures { P.values dst.new ≡ row_of (length dst.old) (λ i. get_or (P.values src.now) (o + clip (iw - 1) (x +ℤ pos i)) 0) }
{
    let n = dst.len();
    let a = left_of(x, 0, n);
    let e = left_of(x, iw as i64, n);
    let s = left_of(0, x, iw);
    fill_row(&mut dst[..a], src[o]);
    copy_row(&mut dst[a..e], src, o + s);
    fill_row(&mut dst[e..], src[o + iw - 1]);
}
