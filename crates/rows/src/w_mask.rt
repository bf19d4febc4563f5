// w_mask's rows: the weights of a row, and what the mask keeps of the weights of one row or of two.
ghost use Rattle.std.specs.Prelude.{◌≡◌, ◌+◌, ◌*◌, ◌<◌, ◌≤◌, length, get_or};
ghost use Rattle.rows.specs.Numbers.{apart};
ghost use Rattle.rows.specs.Places.{row_of};
ghost use Rattle.rows.specs.Combine.{both};
ghost use Rattle.rows.specs.WMask.{weight_of, pair_of, four_of};

// |a - b|
pub fn abs_diff16(a: i16, b: i16) -> u32
    ensures { (result ≡ apart a b) × (result < 65536) }
{
    let d = a as i32 - b as i32;
    if d < 0 { (0 - d) as u32 } else { d as u32 }
}

// min(38 + ((|a-b| + 2^(T-5)) >> T), 64) with T = depth + B - 4. The shift is done in two steps, of which the first makes 2^(T-5) a 1:
// so sixteen bits hold all numbers.
fn weight_px(a: i16, b: i16, depth: u32, bits: u32) -> u8
    requires { (8 ≤ depth) × (depth ≤ 12) × (2 ≤ bits) × (bits ≤ 4) }
    ensures { (result ≡ weight_of depth bits a b) × (result ≤ 64) }
{
    let t = depth + bits - 4;
    let d = abs_diff16(a, b) as u16;
    let m = 38 + (((d >> (t - 5)) + 1) >> 5);
    if m < 64 { m as u8 } else { 64 }
}

// The weights of the intermediates from place q on.
pub fn weight_row(m: &mut [u8], tmp1: &[i16], tmp2: &[i16], q: usize, depth: u32, bits: u32)
    requires m_in_bounds { (q + length m.old ≤ length tmp1.now) × (q + length m.old ≤ length tmp2.now) }
    requires le_depth { (8 ≤ depth) × (depth ≤ 12) × (2 ≤ bits) × (bits ≤ 4) }
    ensures { m.new ≡ row_of (length m.old) (both (weight_of depth bits) tmp1.now tmp2.now q) }
{
    let n = m.len();
    for i in 0..n {
        let v = weight_px(tmp1[q + i], tmp2[q + i], depth, bits);
        m[i] = v;
    }
}

// (m + n + 1 - sign) >> 1
fn pair_px(m: u8, n: u8, sign: u32) -> u8
    requires { sign ≤ 1 }
    ensures { result ≡ pair_of sign m n }
{
    ((m as u32 + n as u32 + 1 - sign) >> 1) as u8
}

// Pairs of the weights m, which begin at place 0.
pub fn pair_row(mask: &mut [u8], m: &[u8], sign: u32)
    requires { (2 * length mask.old ≤ length m.now) × (sign ≤ 1) }
    ensures { mask.new
        ≡ row_of (length mask.old) (λ i. pair_of sign (get_or m.now (2 * i) 0) (get_or m.now (2 * i + 1) 0)) }
{
    let n = mask.len();
    for i in 0..n {
        let v = pair_px(m[2 * i], m[2 * i + 1], sign);
        mask[i] = v;
    }
}

// (a + b + c + d + 2 - sign) >> 2
fn four_px(a: u8, b: u8, c: u8, d: u8, sign: u32) -> u8
    requires { sign ≤ 1 }
    ensures { result ≡ four_of sign (a + b + c + d) }
{
    ((a as u32 + b as u32 + c as u32 + d as u32 + 2 - sign) >> 2) as u8
}

// Fours of the weights m of a row and n of the next.
pub fn four_row(mask: &mut [u8], m: &[u8], n: &[u8], sign: u32)
    requires { (2 * length mask.old ≤ length m.now) × (2 * length mask.old ≤ length n.now) × (sign ≤ 1) }
    ensures { mask.new
        ≡ row_of (length mask.old)
        (λ i. four_of sign (get_or m.now (2 * i) 0 + get_or m.now (2 * i + 1) 0 + get_or n.now (2 * i) 0 + get_or n.now
        (2 * i + 1) 0)) }
{
    let l = mask.len();
    for i in 0..l {
        let v = four_px(m[2 * i], m[2 * i + 1], n[2 * i], n[2 * i + 1], sign);
        mask[i] = v;
    }
}
