// put and prep: pixels copied, and pixels made intermediates.
ghost use Rattle.std.specs.Prelude.{◌≡◌, ◌+◌, ◌*◌, ◌≤◌, length, get_or};
ghost use Rattle.rows.specs.Places.{row_of};
ghost use Rattle.rows.specs.Copy.{put, prep};

use crate::numbers::keep16;
use crate::pixel::Pixel;

// n pixels, all read before the first is written. Where the caller's n is a constant, these are a few loads and stores, with no test for an overlap.
fn copy_whole<P: Pixel>(dst: &mut [P], src: &[P], o: usize, n: usize)
    requires { (length dst.old ≡ n) × (n ≤ 32) × (o + n ≤ length src.now) }
    ensures { P.values dst.new ≡ row_of (length dst.old) (λ i. put (get_or (P.values src.now) (o + i) 0)) }
{
    let mut line = [P::default(); 32];
    for i in 0..n {
        line[i] = src[o + i];
    }
    for j in 0..n {
        dst[j] = line[j];
    }
}

// A row of k to 2k pixels as its first k and its last k.
fn copy_ends<P: Pixel>(dst: &mut [P], src: &[P], o: usize, k: usize)
    requires { (k ≤ length dst.old) × (length dst.old ≤ 2 * k) × (k ≤ 32) × (o + length dst.old ≤ length src.now) }
    ensures { P.values dst.new ≡ row_of (length dst.old) (λ i. put (get_or (P.values src.now) (o + i) 0)) }
{
    let rest = dst.len() - k;
    copy_whole(&mut dst[..k], src, o, k);
    copy_whole(&mut dst[rest..], src, o + rest, k);
}

// A row of any length, pixel by pixel.
fn copy_each<P: Pixel>(dst: &mut [P], src: &[P], o: usize)
    requires { o + length dst.old ≤ length src.now }
    ensures { P.values dst.new ≡ row_of (length dst.old) (λ i. put (get_or (P.values src.now) (o + i) 0)) }
{
    let n = dst.len();
    for i in 0..n {
        dst[i] = src[o + i];
    }
}

// Pixels from place o of src on, four to 64 of them as two pieces of one size.
pub fn copy_row<P: Pixel>(dst: &mut [P], src: &[P], o: usize)
    requires { o + length dst.old ≤ length src.now }
    ensures { P.values dst.new ≡ row_of (length dst.old) (λ i. put (get_or (P.values src.now) (o + i) 0)) }
{
    let n = dst.len();
    if n > 64 {
        copy_each(dst, src, o);
    } else if n > 32 {
        copy_ends(dst, src, o, 32);
    } else if n > 16 {
        copy_ends(dst, src, o, 16);
    } else if n > 8 {
        copy_ends(dst, src, o, 8);
    } else if n >= 4 {
        copy_ends(dst, src, o, 4);
    } else {
        copy_each(dst, src, o);
    }
}

// low16((s << B) - P)
pub fn prep_px<P: Pixel>(s: P, bits: u32, bias: u32) -> i16
    requires { P.bits_ok bits × P.bias_ok bias }
    ensures { result ≡ prep bits bias (P.value s) }
{
    keep16(((s.to_u32() as i32) << P::bits_of(bits)) - P::bias_of(bias) as i32)
}

pub fn prep_row<P: Pixel>(tmp: &mut [i16], src: &[P], o: usize, bits: u32, bias: u32)
    requires { (o + length tmp.old ≤ length src.now) × P.bits_ok bits × P.bias_ok bias }
    ensures { tmp.new ≡ row_of (length tmp.old) (λ i. prep bits bias (get_or (P.values src.now) (o + i) 0)) }
{
    let n = tmp.len();
    for i in 0..n {
        let v = prep_px(src[o + i], bits, bias);
        tmp[i] = v;
    }
}

// The numbers of pixels from place o of src on.
pub fn numbers_row<P: Pixel>(dst: &mut [u16], src: &[P], o: usize)
    requires { o + length dst.old ≤ length src.now }
    ensures { dst.new ≡ row_of (length dst.old) (λ i. get_or (P.values src.now) (o + i) 0) }
{
    for i in 0..dst.len() {
        dst[i] = src[o + i].to_u32() as u16;
    }
}
