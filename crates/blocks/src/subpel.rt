// put_8tap and prep_8tap: blocks filtered by eight taps along the rows, down the columns, both ways or not at all.
ghost use Rattle.std.specs.Prelude.{◌≡◌, length};
ghost use Rattle.rows.specs.Numbers.{up};
ghost use Rattle.rows.specs.Places.{fill};
ghost use Rattle.blocks.specs.Refuse.{told};
ghost use Rattle.blocks.specs.inner.Ready.{Block, Rows, Taps};
ghost use Rattle.blocks.specs.inner.Source.{around_in};
ghost use Rattle.blocks.specs.Subpel.{put8_rule, prep8_rule, Put8Answer, Prep8Answer};

use crate::refuse::{DepthNumbers, Layout, Refusal};
use crate::sample::Sample;
use crate::source::{Stand, top_down};
use crate::subpel::both::{prep_8tap_both, put_8tap_both};
use crate::subpel::lines::{prep_lines, put_lines};
use crate::subpel::plan::{SubpelMotion, check_8tap, plan_8tap};

pub mod both;
pub mod lines;
pub mod plan;

// The block: by one filter at most, or by the horizontal filter into an array of intermediates, and from there by the vertical.
pub fn put_8tap_rows<P: Sample>(
    d: DepthNumbers,
    dst: &mut [P],
    src: &[P],
    s: Stand,
    l: Layout,
    m: SubpelMotion,
    subpel: &[i8],
    ext: &[i8],
)
    requires { Block l.w l.h × Rows (length dst.old) l.dst_stride l.w l.h
        × Taps (length src.now) s l.w l.h m.mx m.my m.filter_type (length subpel.now) (length ext.now)
        × P.bits_ok d.bits × P.bias_ok d.bias × P.max_ok d.max }
    ensures { P.values dst.new
        ≡ fill (P.values dst.old) l.dst_stride l.w l.h
        (λ i j. put8_rule d.max d.bits subpel.now ext.now m.mx m.my m.filter_type l.w l.h
        (around_in 3 (P.values src.now) s i j)) }
{
    let bits = P::bits_of(d.bits);
    let w = l.w;
    let h = l.h;
    let p = plan_8tap(s, w, h, m, bits, subpel, ext);
    if p.both {
        put_8tap_both(d, dst, l.dst_stride, src, p, w, h);
        return;
    }
    put_lines(dst, l.dst_stride, src, p, d.max, w, h);
}

// The same of intermediates.
pub fn prep_8tap_rows<P: Sample>(
    d: DepthNumbers,
    tmp: &mut [i16],
    src: &[P],
    s: Stand,
    l: Layout,
    m: SubpelMotion,
    subpel: &[i8],
    ext: &[i8],
)
    requires { Block l.w l.h × Rows (length tmp.old) l.dst_stride l.w l.h
        × Taps (length src.now) s l.w l.h m.mx m.my m.filter_type (length subpel.now) (length ext.now)
        × P.bits_ok d.bits × P.bias_ok d.bias }
    ensures { tmp.new
        ≡ fill tmp.old l.dst_stride l.w l.h
        (λ i j. prep8_rule d.bits d.bias subpel.now ext.now m.mx m.my m.filter_type l.w l.h
        (around_in 3 (P.values src.now) s i j)) }
{
    let bits = P::bits_of(d.bits);
    let w = l.w;
    let h = l.h;
    let p = plan_8tap(s, w, h, m, bits, subpel, ext);
    if p.both {
        prep_8tap_both(d, tmp, l.dst_stride, src, p, w, h);
        return;
    }
    prep_lines(tmp, l.dst_stride, src, p, d.bits, d.bias, w, h);
}

pub fn hv_put_8tap<P: Sample>(
    depth: i32,
    dst: &mut [P],
    dst_stride: usize,
    src: &[P],
    src_off: usize,
    src_stride: usize,
    w: usize,
    h: usize,
    mx: i32,
    my: i32,
    filter_type: i32,
    subpel: &[i8],
    ext: &[i8],
) -> Result<(), Refusal>
    ensures { Put8Answer (P.depth_ok depth) (up depth) (P.values dst.old) dst_stride (P.values src.now) src_off src_stride w h mx my filter_type
        subpel.now ext.now (told result) (P.values dst.new) }
{
    let l = Layout {
        w,
        h,
        src_stride,
        dst_stride,
    };
    let m = SubpelMotion {
        mx,
        my,
        filter_type,
    };
    check_8tap(
        P::depth_ok(depth),
        dst.len(),
        src.len(),
        src_off,
        l,
        m,
        subpel.len(),
        ext.len(),
    )?;
    let d = P::depth_numbers(depth);
    let s = top_down(src_off, src_stride);
    put_8tap_rows(d, dst, src, s, l, m, subpel, ext);
    Ok(())
}

pub fn hv_prep_8tap<P: Sample>(
    depth: i32,
    tmp: &mut [i16],
    tmp_stride: usize,
    src: &[P],
    src_off: usize,
    src_stride: usize,
    w: usize,
    h: usize,
    mx: i32,
    my: i32,
    filter_type: i32,
    subpel: &[i8],
    ext: &[i8],
) -> Result<(), Refusal>
    ensures { Prep8Answer (P.depth_ok depth) (up depth) tmp.old tmp_stride (P.values src.now) src_off src_stride w h mx my filter_type
        subpel.now ext.now (told result) tmp.new }
{
    let l = Layout {
        w,
        h,
        src_stride,
        dst_stride: tmp_stride,
    };
    let m = SubpelMotion {
        mx,
        my,
        filter_type,
    };
    check_8tap(
        P::depth_ok(depth),
        tmp.len(),
        src.len(),
        src_off,
        l,
        m,
        subpel.len(),
        ext.len(),
    )?;
    let d = P::depth_numbers(depth);
    let s = top_down(src_off, src_stride);
    prep_8tap_rows(d, tmp, src, s, l, m, subpel, ext);
    Ok(())
}
