// The filter sum S of 16-bit pixels. A pixel less 2^15 has sixteen bits with its sign, and such numbers are multiplied and summed in pairs at once; what the
// 2^15 took is added at the end.
ghost use Rattle.std.specs.Prelude.{◌≡◌, ◌+◌, ◌*◌, ◌^◌, ◌<◌, ◌≤◌, pos, ◌+ℤ◌, ◌-ℤ◌, ◌*ℤ◌, length};
ghost use Rattle.std.specs.Int.Signed.{mag};
ghost use Rattle.rows.specs.Numbers.{at, px, sum_z};
ghost use Rattle.rows.specs.Subpel.{S};

use crate::subpel::tap_i16;

// acc + f (x - 2^15)
fn tap_centred(acc: i32, f: i8, x: u16) -> i32
    requires { mag acc < 2 ^ 30 }
    ensures { (result ≡ acc +ℤ f *ℤ (pos x -ℤ pos 32768)) × (mag (f *ℤ (pos x -ℤ pos 32768)) < 2 ^ 24) }
{
    tap_i16(acc, f, (x as i32 - 32768) as i16)
}

// The sum of a filter's taps.
fn taps_alone(f: &[i8]) -> i32
    requires { 8 ≤ length f.now }
    ensures { (result ≡ sum_z 8 (at f.now)) × (mag result < 2 ^ 11) }
{
    let mut s: i32 = 0;
    for j in 0..8 {
        s = s + f[j] as i32;
    }
    s
}

// A filter's taps stand at place o, o + step, .. o + 7 step.
pub fn taps(src: &[u16], o: usize, step: usize, f: &[i8]) -> i32
    requires { (o + 7 * step < length src.now) × (8 ≤ length f.now) }
    ensures { (result ≡ S f.now (λ t. px src.now (o + t * step))) × (mag result < 2 ^ 30) }
{
    let mut s: i32 = 0;
    for j in 0..8 {
        s = tap_centred(s, f[j], src[o + j * step]);
    }
    s + taps_alone(f) * 32768
}
