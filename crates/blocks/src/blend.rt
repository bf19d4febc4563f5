// blend and morph: pixels changed in place.
ghost use Rattle.std.specs.Prelude.{◌≡◌, ◌+◌, ◌*◌, ◌≤◌, nat_abs, length, ◌^◌};
ghost use Rattle.rows.specs.inner.Combine.{AtMost};
ghost use Rattle.blocks.specs.Refuse.{told, lowest};
ghost use Rattle.blocks.specs.inner.Ready.{Block, Rows};
ghost use Rattle.blocks.specs.inner.Blend.{found_at};
ghost use Rattle.blocks.specs.Blend.{blend_shape, first_above, morph_tests, BlendAnswer, MorphAnswer};
ghost use Rattle.rows.specs.Numbers.{up};
ghost use Rattle.rows.specs.Places.{fill, pixel};
ghost use Rattle.rows.specs.Combine.{blend, morph};

use crate::numbers::within;
use crate::refuse::{Refusal, holds_rows, needed, size_ok, stride_ok};
use crate::sample::Sample;
use rows::blend::{blend_row, morph_row};

// A row and a column of a block.
#[derive(Clone, Copy)]
pub struct Spot {
    pub row: usize,
    pub col: usize,
}

// The tests before the mask's values are looked at: numbers 1 to 6.
#[tactic(auto, unfolding(crate::specs::Refuse::need))]
pub fn check_blend(
    dl: usize,
    dst_stride: usize,
    tl: usize,
    w: usize,
    h: usize,
    ml: usize,
) -> Result<(), Refusal>
    ensures { told result ≡ lowest (blend_shape dl dst_stride tl w h ml) }
{
    needed(size_ok(64, w), Refusal::Size)?;
    needed(size_ok(64, h), Refusal::Size)?;
    needed(stride_ok(w, dst_stride), Refusal::Stride)?;
    needed(holds_rows(tl, w, w, h), Refusal::Read)?;
    needed(holds_rows(ml, w, w, h), Refusal::Read)?;
    needed(holds_rows(dl, dst_stride, w, h), Refusal::Written)
}

// The largest of the n values from place q on.
fn largest(mask: &[u8], q: usize, n: usize) -> u8
    requires { q + n ≤ length mask.now }
    ensures { AtMost result mask.now q n }
{
    let mut m = 0;
    for i in 0..n {
        m = larger(m, mask[q + i]);
    }
    m
}

// The larger of the two.
fn larger(a: u8, b: u8) -> u8
    ensures { (a ≤ result) × (b ≤ result) }
{
    if a < b { b } else { a }
}

// The place of the first value above 64 in reading order, where the search ends; none where there is none. The columns are looked through in a row whose
// largest value is above 64.
pub fn first_above(mask: &[u8], w: usize, h: usize) -> Option<Spot>
    requires { Block w h × Rows (length mask.now) w w h }
    ensures { result ≡ found_at w h (first_above mask.now 0 (w * h)) }
{
    let mut first = None;
    'search: for row in 0..h {
        let above = largest(mask, row * w, w) > 64;
        if above {
            for col in 0..w {
                if mask[row * w + col] > 64 {
                    first = Some(Spot { row, col });
                    break 'search;
                }
            }
        }
    }
    first
}

#[tactic(auto, unfolding(crate::specs::Refuse::need))]
pub fn check_morph(
    deep: bool,
    dl: usize,
    dst_stride: usize,
    alpha: i32,
    beta: i32,
    w: usize,
    h: usize,
) -> Result<(), Refusal>
    ensures { told result ≡ lowest (morph_tests deep dl dst_stride alpha beta w h) }
{
    needed(size_ok(64, w), Refusal::Size)?;
    needed(size_ok(64, h), Refusal::Size)?;
    needed(stride_ok(w, dst_stride), Refusal::Stride)?;
    needed(deep, Refusal::Number)?;
    needed(within(alpha, 16384), Refusal::Number)?;
    needed(within(beta, 4194304), Refusal::Number)?;
    needed(holds_rows(dl, dst_stride, w, h), Refusal::Written)
}

fn blend_rows<P: Sample>(
    dst: &mut [P],
    dst_stride: usize,
    tmp: &[P],
    w: usize,
    h: usize,
    mask: &[u8],
)
    requires { Block w h × Rows (length dst.old) dst_stride w h × Rows (length tmp.now) w w h × Rows (length mask.now) w w h
        × AtMost 64 mask.now 0 (w * h) }
    ensures { P.values dst.new
        ≡ fill (P.values dst.old) dst_stride w h
        (λ i j. blend (pixel mask.now w i j) (pixel (P.values dst.old) dst_stride i j) (pixel (P.values tmp.now) w i j)) }
{
    for y in 0..h {
        let d = y * dst_stride;
        blend_row(&mut dst[d..d + w], tmp, mask, y * w);
    }
}

pub fn hv_blend<P: Sample>(
    dst: &mut [P],
    dst_stride: usize,
    tmp: &[P],
    w: usize,
    h: usize,
    mask: &[u8],
    row: &mut usize,
    col: &mut usize,
) -> Result<(), Refusal>
    ensures { BlendAnswer (P.values dst.old) dst_stride (P.values tmp.now) w h mask.now (told result) (P.values dst.new) row.new
        col.new }
{
    *row = 0;
    *col = 0;
    check_blend(dst.len(), dst_stride, tmp.len(), w, h, mask.len())?;
    if let Some(spot) = first_above(mask, w, h) {
        *row = spot.row;
        *col = spot.col;
        return Err(Refusal::Above64);
    }
    blend_rows(dst, dst_stride, tmp, w, h, mask);
    Ok(())
}

fn morph_rows<P: Sample>(
    dst: &mut [P],
    dst_stride: usize,
    alpha: i32,
    beta: i32,
    w: usize,
    h: usize,
    max: u16,
)
    requires { Block w h × Rows (length dst.old) dst_stride w h × (nat_abs alpha ≤ 2 ^ 14) × (nat_abs beta ≤ 2 ^ 22) × P.max_ok max }
    ensures { P.values dst.new ≡ fill (P.values dst.old) dst_stride w h (λ i j. morph max alpha beta (pixel (P.values dst.old) dst_stride i j)) }
{
    for y in 0..h {
        let d = y * dst_stride;
        morph_row(&mut dst[d..d + w], alpha, beta, max);
    }
}

pub fn hv_morph<P: Sample>(
    depth: i32,
    dst: &mut [P],
    dst_stride: usize,
    alpha: i32,
    beta: i32,
    w: usize,
    h: usize,
) -> Result<(), Refusal>
    ensures { MorphAnswer (P.depth_ok depth) (up depth) (P.values dst.old) dst_stride alpha beta w h (told result) (P.values dst.new) }
{
    check_morph(P::depth_ok(depth), dst.len(), dst_stride, alpha, beta, w, h)?;
    let d = P::depth_numbers(depth);
    morph_rows(dst, dst_stride, alpha, beta, w, h, d.max);
    Ok(())
}
