// The rows of an 8-tap block: by one filter at most, or by the second of two.
ghost use Rattle.std.specs.Prelude.{◌≡◌, true, ◌+◌, ◌*◌, ◌≤◌, pos, length, ◌-◌, get_or};
ghost use Rattle.rows.specs.Numbers.{at, half, low16, minus16, clip};
ghost use Rattle.rows.specs.Places.{fill, row_of};
ghost use Rattle.rows.specs.Subpel.{tapped};
ghost use Rattle.rows.specs.inner.Subpel.{Near};
ghost use Rattle.blocks.specs.inner.Ready.{Lines};
ghost use Rattle.blocks.specs.inner.Source.{top_down};
ghost use Rattle.blocks.specs.inner.Subpel.{put_line, prep_line, along};

use crate::sample::Sample;
use crate::source::row_first;
use crate::subpel::plan::Plan;
use rows::copy::{copy_row, prep_row};
use rows::near::is_near;
use rows::numbers::half_power;
use rows::subpel::{mid_prep_row, mid_row, tap_mid_row, tap_row};

// The rows of a block by the second filter, from rows of intermediates 64 apart.
pub fn mid_prep_lines(
    tmp: &mut [i16],
    tmp_stride: usize,
    mid: &[i16],
    f: &[i8; 8],
    near: bool,
    n: u32,
    bias: u32,
    w: usize,
    h: usize,
)
    requires { Lines (length tmp.old) tmp_stride (length mid.now) (top_down 0 64) 64 w h × (near ≡ true → Near f.now) × (n ≤ 7) × (bias ≤ 8192) }
    ensures { tmp.new
        ≡ fill tmp.old tmp_stride w h
        (λ i j. minus16 (low16 (tapped f.now (half n) n (λ t. at mid.now (j * 64 + i + t * 64)))) (pos bias)) }
{
    let r = half_power(n);
    let p = bias as i16;
    for y in 0..h {
        let d = y * tmp_stride;
        mid_prep_row(&mut tmp[d..d + w], mid, y * 64, 64, f, near, r, n, p);
    }
}

// A row by one filter at most: without one, step is 0.
fn put_line_row<P: Sample>(
    dst: &mut [P],
    src: &[P],
    o: usize,
    step: usize,
    f: &[i8; 8],
    near: bool,
    r: u32,
    n: u32,
    max: u16,
)
    requires { (o + length dst.old + 7 * step ≤ length src.now) × (r ≤ 127) × (n ≤ 8) × (near ≡ true → Near f.now) × P.max_ok max }
    ensures { P.values dst.new
        ≡ row_of (length dst.old) (λ i. put_line max f.now r n step (λ t. get_or (P.values src.now) (o + i + t * step) 0)) }
{
    if step == 0 {
        copy_row(dst, src, o);
    } else {
        tap_row(dst, src, o, step, f, near, r, n, max);
    }
}

// The same of intermediates.
fn prep_line_row<P: Sample>(
    tmp: &mut [i16],
    src: &[P],
    o: usize,
    step: usize,
    f: &[i8; 8],
    near: bool,
    n: u32,
    bits: u32,
    bias: u32,
)
    requires { (o + length tmp.old + 7 * step ≤ length src.now) × (n ≤ 7) × (near ≡ true → Near f.now) × P.bits_ok bits × P.bias_ok bias }
    ensures { tmp.new
        ≡ row_of (length tmp.old) (λ i. prep_line bits bias f.now n step (λ t. get_or (P.values src.now) (o + i + t * step) 0)) }
{
    if step == 0 {
        prep_row(tmp, src, o, bits, bias);
    } else {
        let r = half_power(n);
        tap_mid_row(tmp, src, o, step, f, near, r, n, P::bias_of(bias) as i16);
    }
}

// The rows of a block by the plan's first filter.
pub fn put_lines<P: Sample>(
    dst: &mut [P],
    dst_stride: usize,
    src: &[P],
    p: Plan,
    max: u16,
    w: usize,
    h: usize,
)
    requires { Lines (length dst.old) dst_stride (length src.now) p.rows p.step w h × (p.round ≤ 127) × (6 ≤ p.bits)
        × (p.bits ≤ 7) × P.max_ok max }
    ensures { P.values dst.new
        ≡ fill (P.values dst.old) dst_stride w h
        (λ i j. put_line max p.first p.round p.bits p.step (along (P.values src.now) p.rows p.step i j)) }
{
    let f = p.first;
    let near = is_near(&f);
    let s = p.rows;
    for y in 0..h {
        let o = row_first(s, y);
        let d = y * dst_stride;
        put_line_row(
            &mut dst[d..d + w],
            src,
            o,
            p.step,
            &f,
            near,
            p.round,
            p.bits,
            max,
        );
    }
}

// The same of intermediates.
pub fn prep_lines<P: Sample>(
    tmp: &mut [i16],
    tmp_stride: usize,
    src: &[P],
    p: Plan,
    bits: u32,
    bias: u32,
    w: usize,
    h: usize,
)
    requires { Lines (length tmp.old) tmp_stride (length src.now) p.rows p.step w h × (6 ≤ p.bits) × (p.bits ≤ 7)
        × P.bits_ok bits × P.bias_ok bias }
    ensures { tmp.new
        ≡ fill tmp.old tmp_stride w h
        (λ i j. prep_line bits bias p.first (p.bits - bits) p.step (along (P.values src.now) p.rows p.step i j)) }
{
    let f = p.first;
    let near = is_near(&f);
    let s = p.rows;
    let n = p.bits - P::bits_of(bits);
    for y in 0..h {
        let o = row_first(s, y);
        let d = y * tmp_stride;
        prep_line_row(&mut tmp[d..d + w], src, o, p.step, &f, near, n, bits, bias);
    }
}

// The second pass: the rows of a block by the filter down the columns, from rows of intermediates 64 apart.
pub fn mid_lines<P: Sample>(
    dst: &mut [P],
    dst_stride: usize,
    mid: &[i16],
    f: &[i8; 8],
    near: bool,
    n: u32,
    max: u16,
    w: usize,
    h: usize,
)
    requires { Lines (length dst.old) dst_stride (length mid.now) (top_down 0 64) 64 w h × (near ≡ true → Near f.now) × (1 ≤ n) × (n ≤ 11) × P.max_ok max }
    ensures { P.values dst.new
        ≡ fill (P.values dst.old) dst_stride w h
        (λ i j. clip max (tapped f.now (half n) n (λ t. at mid.now (j * 64 + i + t * 64)))) }
{
    let r = half_power(n);
    for y in 0..h {
        let d = y * dst_stride;
        mid_row(&mut dst[d..d + w], mid, y * 64, 64, f, near, r, n, max);
    }
}
