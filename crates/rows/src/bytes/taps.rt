// The filter sum S of pixels.
ghost use Rattle.std.specs.Prelude.{◌≡◌, ◌+◌, ◌*◌, ◌^◌, ◌<◌, ◌≤◌, pos, ◌+ℤ◌, ◌*ℤ◌, length};
ghost use Rattle.std.specs.Int.Signed.{mag};
ghost use Rattle.rows.specs.Numbers.{px};
ghost use Rattle.rows.specs.Subpel.{S};

use crate::subpel::tap;

fn tap_pixel(acc: i32, f: i8, x: u8) -> i32
    requires { mag acc < 2 ^ 30 }
    ensures { (result ≡ acc +ℤ f *ℤ pos x) × (mag (f *ℤ pos x) < 2 ^ 24) }
{
    tap(acc, f, x as i32)
}

// A filter's taps stand at place o, o + step, .. o + 7 step.
pub fn taps(src: &[u8], o: usize, step: usize, f: &[i8]) -> i32
    requires { (o + 7 * step < length src.now) × (8 ≤ length f.now) }
    ensures { (result ≡ S f.now (λ t. px src.now (o + t * step))) × (mag result < 2 ^ 30) }
{
    let mut s: i32 = 0;
    for j in 0..8 {
        s = tap_pixel(s, f[j], src[o + j * step]);
    }
    s
}
