// 8-tap blocks by both filters, eight rows at a time. The array has the intermediates of eight rows and of the seven after them, which the next eight begin
// with.
ghost use Rattle.std.specs.Prelude.{◌≡◌, ◌+◌, ◌*◌, ◌≤◌, pos, length};
ghost use Rattle.rows.specs.Numbers.{half, clip, low16, minus16};
ghost use Rattle.rows.specs.Places.{fill};
ghost use Rattle.rows.specs.Subpel.{tapped};
ghost use Rattle.blocks.specs.inner.Ready.{Block, Rows};
ghost use Rattle.blocks.specs.inner.Source.{Stood};
ghost use Rattle.blocks.specs.inner.Subpel.{first_pass};

use crate::groups::{carry, eight_at_most};
use crate::refuse::DepthNumbers;
use crate::sample::Sample;
use crate::subpel::lines::{mid_lines, mid_prep_lines, prep_lines};
use crate::subpel::plan::{Plan, plan_from};
use rows::near::is_near;

pub fn put_8tap_both<P: Sample>(
    d: DepthNumbers,
    dst: &mut [P],
    dst_stride: usize,
    src: &[P],
    p: Plan,
    w: usize,
    h: usize,
)
    requires { Block w h × Rows (length dst.old) dst_stride w h × Stood (length src.now) p.rows (w + 7 * p.step) (h + 7) × (6 ≤ p.bits)
        × (p.bits ≤ 7) × P.bits_ok d.bits × P.max_ok d.max }
    ensures { P.values dst.new ≡ fill (P.values dst.old) dst_stride w h
        (λ i j. clip d.max (tapped p.second (half (p.bits + d.bits)) (p.bits + d.bits)
        (λ t. first_pass p d.bits (P.values src.now) i (j + t)))) }
{
    let g = p.second;
    let near = is_near(&g);
    let n = p.bits + P::bits_of(d.bits);
    let mut mid = [0i16; 960];
    prep_lines(&mut mid, 64, src, p, d.bits, 0, w, 7);
    for group in 0..(h + 7) / 8 {
        let y = 8 * group;
        let k = eight_at_most(h - y);
        let q = plan_from(p, y + 7);
        prep_lines(&mut mid[448..960], 64, src, q, d.bits, 0, w, k);
        let a = y * dst_stride;
        let e = a + (k - 1) * dst_stride + w;
        mid_lines(&mut dst[a..e], dst_stride, &mid, &g, near, n, d.max, w, k);
        if y + k < h {
            carry(&mut mid, 448);
        }
    }
}

// The same of intermediates.
pub fn prep_8tap_both<P: Sample>(
    d: DepthNumbers,
    tmp: &mut [i16],
    tmp_stride: usize,
    src: &[P],
    p: Plan,
    w: usize,
    h: usize,
)
    requires { Block w h × Rows (length tmp.old) tmp_stride w h × Stood (length src.now) p.rows (w + 7 * p.step) (h + 7) × (6 ≤ p.bits)
        × (p.bits ≤ 7) × P.bits_ok d.bits × P.bias_ok d.bias }
    ensures { tmp.new ≡ fill tmp.old tmp_stride w h
        (λ i j. minus16 (low16 (tapped p.second (half p.bits) p.bits
        (λ t. first_pass p d.bits (P.values src.now) i (j + t)))) (pos d.bias)) }
{
    let g = p.second;
    let near = is_near(&g);
    let bias = P::bias_of(d.bias);
    let mut mid = [0i16; 960];
    prep_lines(&mut mid, 64, src, p, d.bits, 0, w, 7);
    for group in 0..(h + 7) / 8 {
        let y = 8 * group;
        let k = eight_at_most(h - y);
        let q = plan_from(p, y + 7);
        prep_lines(&mut mid[448..960], 64, src, q, d.bits, 0, w, k);
        let a = y * tmp_stride;
        let e = a + (k - 1) * tmp_stride + w;
        mid_prep_lines(
            &mut tmp[a..e],
            tmp_stride,
            &mid,
            &g,
            near,
            p.bits,
            bias,
            w,
            k,
        );
        if y + k < h {
            carry(&mut mid, 448);
        }
    }
}
