// Pixels changed in place: blend with other pixels by a mask, morph by a scale and an offset.
ghost use Rattle.std.specs.Prelude.{◌≡◌, ◌^◌, ◌≤◌, nat_abs, ◌+ℤ◌, ◌*ℤ◌, ◌+◌, length, get_or};
ghost use Rattle.std.specs.Int.Signed.{shr_z};
ghost use Rattle.rows.specs.Places.{row_of};
ghost use Rattle.rows.specs.Combine.{blend, morph};
ghost use Rattle.rows.specs.inner.Combine.{AtMost};

use crate::pixel::Pixel;

// (alpha d + beta) >> 8
pub fn scaled(alpha: i32, beta: i32, d: i32) -> i32
    requires { (nat_abs alpha ≤ 2 ^ 14) × (nat_abs d ≤ 65535) × (nat_abs beta ≤ 2 ^ 22) }
    ensures { result ≡ shr_z (alpha *ℤ d +ℤ beta) (2 ^ 8) }
{
    (alpha * d + beta) >> 8
}

// A pixel stays within the larger of the two, so that the sum is one.
fn blend_px<P: Pixel>(m: u8, d: P, t: P) -> P
    requires { m ≤ 64 }
    ensures { P.value result ≡ blend m (P.value d) (P.value t) }
{
    let k = m as u32;
    P::from_u32((d.to_u32() * (64 - k) + t.to_u32() * k + 32) >> 6)
}

// tmp and mask are read from place q on.
pub fn blend_row<P: Pixel>(dst: &mut [P], tmp: &[P], mask: &[u8], q: usize)
    requires { (q + length dst.old ≤ length tmp.now) × (q + length dst.old ≤ length mask.now) × AtMost 64 mask.now q (length dst.old) }
    ensures { P.values dst.new
        ≡ row_of (length dst.old)
        (λ i. blend (get_or mask.now (q + i) 0) (get_or (P.values dst.old) i 0) (get_or (P.values tmp.now) (q + i) 0)) }
{
    let n = dst.len();
    for i in 0..n {
        dst[i] = blend_px(mask[q + i], dst[i], tmp[q + i]);
    }
}

fn morph_px<P: Pixel>(alpha: i32, beta: i32, d: P, max: u16) -> P
    requires { (nat_abs alpha ≤ 2 ^ 14) × (nat_abs beta ≤ 2 ^ 22) × P.max_ok max }
    ensures { P.value result ≡ morph max alpha beta (P.value d) }
{
    P::clip(scaled(alpha, beta, d.to_u32() as i32), max)
}

pub fn morph_row<P: Pixel>(dst: &mut [P], alpha: i32, beta: i32, max: u16)
    requires { (nat_abs alpha ≤ 2 ^ 14) × (nat_abs beta ≤ 2 ^ 22) × P.max_ok max }
    ensures { P.values dst.new ≡ row_of (length dst.old) (λ i. morph max alpha beta (get_or (P.values dst.old) i 0)) }
{
    let n = dst.len();
    for i in 0..n {
        dst[i] = morph_px(alpha, beta, dst[i], max);
    }
}
