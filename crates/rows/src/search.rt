// The sum of absolute differences of a row.
ghost use Rattle.std.specs.Prelude.{◌≡◌, ◌+◌, ◌*◌, ◌<◌, ◌≤◌, pos, length};
ghost use Rattle.rows.specs.Numbers.{px, apart, sum};

use crate::pixel::Pixel;

// |a - b|
fn abs_diff<P: Pixel>(a: P, b: P) -> u32
    ensures { (result ≡ apart (pos (P.value a)) (pos (P.value b))) × (result < 65536) }
{
    let d = a.to_u32() as i32 - b.to_u32() as i32;
    if d < 0 { (0 - d) as u32 } else { d as u32 }
}

// Of w pixels from place o of p on and from place q of r on.
pub fn sad_row<P: Pixel>(p: &[P], o: usize, r: &[P], q: usize, w: usize) -> u32
    requires { (o + w ≤ length p.now) × (q + w ≤ length r.now) × (w ≤ 68) }
    ensures { (result ≡ sum w (λ i. apart (px (P.values p.now) (o + i)) (px (P.values r.now) (q + i)))) × (result ≤ w * 65535) }
{
    let mut s: u32 = 0;
    for i in 0..w {
        s += abs_diff(p[o + i], r[q + i]);
    }
    s
}
