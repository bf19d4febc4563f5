// w_mask: two blocks of intermediates combined by weights from their differences, and the mask of these weights.
ghost use Rattle.std.specs.Prelude.{◌≡◌, true, false, ◌*◌, ◌/◌, ◌≤◌, length};
ghost use Rattle.rows.specs.Places.{fill};
ghost use Rattle.rows.specs.Combine.{both, masked};
ghost use Rattle.rows.specs.WMask.{weight_of, mask_at};
ghost use Rattle.blocks.specs.Refuse.{told, lowest};
ghost use Rattle.blocks.specs.inner.Ready.{Depths, Weighing, Block, Rows, DepthRange};
ghost use Rattle.blocks.specs.WMask.{even_ok, mask_side, flags_ok, sign_ok, w_mask_tests, WMaskAnswer};
ghost use Rattle.rows.specs.Numbers.{up};

use crate::combine::mask_rows;
use crate::frame::flags_ok;
use crate::numbers::up32;
use crate::refuse::{DepthNumbers, Refusal, holds_rows, needed, size_ok, stride_ok};
use crate::sample::Sample;
use rows::combine::mask_row;
use rows::w_mask::{four_row, pair_row, weight_row};

// h rows of w places, a stride apart.
#[derive(Clone, Copy)]
pub struct Extent {
    pub stride: usize,
    pub w: usize,
    pub h: usize,
}

// A mask's stride, and whether one of its places stands for two columns, and for two rows. The sign goes beside it: out of a record's field the compiler
// doesn't keep a row's sums in sixteen bits.
#[derive(Clone, Copy)]
pub struct MaskForm {
    pub stride: usize,
    pub ss_hor: bool,
    pub ss_ver: bool,
}

// The lengths of what a call is lent.
#[derive(Clone, Copy)]
pub struct WMaskLengths {
    pub dst: usize,
    pub tmp1: usize,
    pub tmp2: usize,
    pub mask: usize,
}

// Even where the flag is set.
fn even_ok(flag: bool, n: usize) -> bool
    ensures { result ≡ even_ok flag n }
{
    !flag | (n % 2 == 0)
}

// A side of the mask.
fn mask_side(flag: bool, n: usize) -> usize
    ensures { result ≡ mask_side flag n }
{
    if flag { n / 2 } else { n }
}

fn sign_ok(sign: i32) -> bool
    ensures { result ≡ sign_ok sign }
{
    (0 <= sign) & (sign <= 1)
}

#[tactic(auto, unfolding(crate::specs::Refuse::need))]
pub fn check_w_mask(
    deep: bool,
    l: WMaskLengths,
    block: Extent,
    mask_stride: usize,
    sign: i32,
    ss_hor: bool,
    ss_ver: bool,
) -> Result<(), Refusal>
    ensures { told result ≡ lowest (w_mask_tests deep l.dst block.stride l.tmp1 l.tmp2 block.w block.h l.mask mask_stride
        sign ss_hor ss_ver) }
{
    let w = block.w;
    let h = block.h;
    let mw = mask_side(ss_hor, w);
    let mh = mask_side(ss_ver, h);
    needed(size_ok(64, w), Refusal::Size)?;
    needed(size_ok(64, h), Refusal::Size)?;
    needed(even_ok(ss_hor, w), Refusal::Size)?;
    needed(even_ok(ss_ver, h), Refusal::Size)?;
    needed(stride_ok(w, block.stride), Refusal::Stride)?;
    needed(stride_ok(mw, mask_stride), Refusal::Stride)?;
    needed(deep, Refusal::Number)?;
    needed(sign_ok(sign), Refusal::Number)?;
    needed(flags_ok(ss_hor, ss_ver), Refusal::Number)?;
    needed(holds_rows(l.tmp1, w, w, h), Refusal::Read)?;
    needed(holds_rows(l.tmp2, w, w, h), Refusal::Read)?;
    needed(holds_rows(l.dst, block.stride, w, h), Refusal::Written)?;
    needed(holds_rows(l.mask, mask_stride, mw, mh), Refusal::Written)
}

// The mask doesn't depend on the pixels' type, so it is written on its own, by functions that aren't generic. Where it doesn't keep each weight,
// the weights are made again for the pixels.

// Without ss_hor: it keeps each weight.
fn keep_each(
    mask: &mut [u8],
    mask_stride: usize,
    tmp1: &[i16],
    tmp2: &[i16],
    w: usize,
    h: usize,
    depth: u32,
    bits: u32,
)
    requires { Weighing (length tmp1.now) (length tmp2.now) w h (length mask.old) mask_stride w h × Depths depth bits }
    ensures { mask.new
        ≡ fill mask.old mask_stride w h (λ i j. both (weight_of depth bits) tmp1.now tmp2.now (j * w) i) }
{
    for y in 0..h {
        let k = y * mask_stride;
        weight_row(&mut mask[k..k + w], tmp1, tmp2, y * w, depth, bits);
    }
}

// With ss_hor alone: it keeps pairs.
fn keep_pairs(
    mask: &mut [u8],
    mask_stride: usize,
    tmp1: &[i16],
    tmp2: &[i16],
    w: usize,
    h: usize,
    sign: u32,
    depth: u32,
    bits: u32,
)
    requires { Weighing (length tmp1.now) (length tmp2.now) w h (length mask.old) mask_stride (w / 2) h × (sign ≤ 1) × Depths depth bits }
    ensures { mask.new
        ≡ fill mask.old mask_stride (w / 2) h (mask_at sign true false
        (λ i j. both (weight_of depth bits) tmp1.now tmp2.now (j * w) i)) }
{
    let mut m = [0u8; 64];
    for y in 0..h {
        let k = y * mask_stride;
        weight_row(&mut m[..w], tmp1, tmp2, y * w, depth, bits);
        pair_row(&mut mask[k..k + w / 2], &m, sign);
    }
}

// With ss_ver too: it keeps fours of two rows.
fn keep_fours(
    mask: &mut [u8],
    mask_stride: usize,
    tmp1: &[i16],
    tmp2: &[i16],
    w: usize,
    h: usize,
    sign: u32,
    depth: u32,
    bits: u32,
)
    requires { Weighing (length tmp1.now) (length tmp2.now) w h (length mask.old) mask_stride (w / 2) (h / 2) × (sign ≤ 1) × Depths depth bits }
    ensures { mask.new
        ≡ fill mask.old mask_stride (w / 2) (h / 2) (mask_at sign true true
        (λ i j. both (weight_of depth bits) tmp1.now tmp2.now (j * w) i)) }
{
    let mut m = [0u8; 64];
    let mut n = [0u8; 64];
    for y in 0..h / 2 {
        let k = y * mask_stride;
        let r = 2 * y;
        weight_row(&mut m[..w], tmp1, tmp2, r * w, depth, bits);
        weight_row(&mut n[..w], tmp1, tmp2, (r + 1) * w, depth, bits);
        four_row(&mut mask[k..k + w / 2], &m, &n, sign);
    }
}

// The way that the flags name.
pub fn keep_mask(
    mask: &mut [u8],
    form: MaskForm,
    tmp1: &[i16],
    tmp2: &[i16],
    w: usize,
    h: usize,
    sign: u32,
    depth: u32,
    bits: u32,
)
    requires { Weighing (length tmp1.now) (length tmp2.now) w h (length mask.old) form.stride
        (mask_side form.ss_hor w) (mask_side form.ss_ver h)
        × (flags_ok form.ss_hor form.ss_ver ≡ true) × (sign ≤ 1) × Depths depth bits }
    ensures { mask.new
        ≡ fill mask.old form.stride (mask_side form.ss_hor w) (mask_side form.ss_ver h)
        (mask_at sign form.ss_hor form.ss_ver
        (λ i j. both (weight_of depth bits) tmp1.now tmp2.now (j * w) i)) }
{
    if form.ss_ver {
        keep_fours(mask, form.stride, tmp1, tmp2, w, h, sign, depth, bits);
    } else if form.ss_hor {
        keep_pairs(mask, form.stride, tmp1, tmp2, w, h, sign, depth, bits);
    } else {
        keep_each(mask, form.stride, tmp1, tmp2, w, h, depth, bits);
    }
}

// The pixels where the mask doesn't keep each weight.
fn weighed_rows<P: Sample>(
    d: DepthNumbers,
    dst: &mut [P],
    dst_stride: usize,
    tmp1: &[i16],
    tmp2: &[i16],
    w: usize,
    h: usize,
    depth: u32,
)
    requires { Block w h × Rows (length dst.old) dst_stride w h × Rows (length tmp1.now) w w h × Rows (length tmp2.now) w w h × DepthRange depth
        × P.bits_ok d.bits × P.bias_ok d.bias × P.max_ok d.max }
    ensures { P.values dst.new
        ≡ fill (P.values dst.old) dst_stride w h
        (λ i j. both (masked d.max d.bits d.bias (both (weight_of depth d.bits) tmp1.now tmp2.now (j * w) i))
        tmp1.now tmp2.now (j * w) i) }
{
    let bits = P::bits_of(d.bits);
    let mut m = [0u8; 64];
    for y in 0..h {
        let p = y * dst_stride;
        let q = y * w;
        weight_row(&mut m[..w], tmp1, tmp2, q, depth, bits);
        mask_row(
            &mut dst[p..p + w],
            tmp1,
            tmp2,
            q,
            &m,
            0,
            d.bits,
            d.bias,
            d.max,
        );
    }
}

// The mask first: where it keeps each weight, the pixels are then made by it, as in mask.
fn w_mask_rows<P: Sample>(
    d: DepthNumbers,
    dst: &mut [P],
    block: Extent,
    tmp1: &[i16],
    tmp2: &[i16],
    mask: &mut [u8],
    form: MaskForm,
    sign: u32,
    depth: u32,
)
    requires { Rows (length dst.old) block.stride block.w block.h
        × Weighing (length tmp1.now) (length tmp2.now) block.w block.h (length mask.old) form.stride
        (mask_side form.ss_hor block.w) (mask_side form.ss_ver block.h)
        × (flags_ok form.ss_hor form.ss_ver ≡ true) × (sign ≤ 1) × DepthRange depth × P.bits_ok d.bits × P.bias_ok d.bias × P.max_ok d.max }
    ensures { (P.values dst.new
        ≡ fill (P.values dst.old) block.stride block.w block.h
        (λ i j. both (masked d.max d.bits d.bias (both (weight_of depth d.bits) tmp1.now tmp2.now (j * block.w) i))
        tmp1.now tmp2.now (j * block.w) i))
        × (mask.new
        ≡ fill mask.old form.stride (mask_side form.ss_hor block.w) (mask_side form.ss_ver block.h)
        (mask_at sign form.ss_hor form.ss_ver
        (λ i j. both (weight_of depth d.bits) tmp1.now tmp2.now (j * block.w) i))) }
{
    let ds = block.stride;
    let w = block.w;
    let h = block.h;
    let bits = P::bits_of(d.bits);
    keep_mask(mask, form, tmp1, tmp2, w, h, sign, depth, bits);
    if form.ss_hor {
        weighed_rows(d, dst, ds, tmp1, tmp2, w, h, depth);
    } else {
        mask_rows(d, dst, ds, tmp1, tmp2, w, h, mask, form.stride);
    }
}

pub fn hv_w_mask<P: Sample>(
    depth: i32,
    dst: &mut [P],
    dst_stride: usize,
    tmp1: &[i16],
    tmp2: &[i16],
    w: usize,
    h: usize,
    mask: &mut [u8],
    mask_stride: usize,
    sign: i32,
    ss_hor: bool,
    ss_ver: bool,
) -> Result<(), Refusal>
    ensures { WMaskAnswer (P.depth_ok depth) (up depth) (P.values dst.old) dst_stride tmp1.now tmp2.now w h mask.old
        mask_stride sign ss_hor ss_ver (told result) (P.values dst.new) mask.new }
{
    let block = Extent {
        stride: dst_stride,
        w,
        h,
    };
    let lengths = WMaskLengths {
        dst: dst.len(),
        tmp1: tmp1.len(),
        tmp2: tmp2.len(),
        mask: mask.len(),
    };
    check_w_mask(
        P::depth_ok(depth),
        lengths,
        block,
        mask_stride,
        sign,
        ss_hor,
        ss_ver,
    )?;
    let d = P::depth_numbers(depth);
    let form = MaskForm {
        stride: mask_stride,
        ss_hor,
        ss_ver,
    };
    let s = up32(sign);
    w_mask_rows(d, dst, block, tmp1, tmp2, mask, form, s, up32(depth));
    Ok(())
}
