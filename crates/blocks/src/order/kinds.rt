// A block of each kind, from a source that begins at its window's first pixel.
ghost use Rattle.std.specs.Prelude.{◌≡◌, length};
ghost use Rattle.rows.specs.Places.{fill};
ghost use Rattle.blocks.specs.inner.Ready.{Rows, Windowed};
ghost use Rattle.blocks.specs.Window.{around_part};
ghost use Rattle.blocks.specs.Order.{kind_number, put_rule, prep_rule};

use crate::bilinear::{prep_bilin_rows, put_bilin_rows};
use crate::copy::{prep_rows, put_rows};
use crate::numbers::up32;
use crate::order::Kind;
use crate::refuse::{DepthNumbers, Layout};
use crate::sample::Sample;
use crate::source::top_down;
use crate::subpel::{prep_8tap_rows, put_8tap_rows};
use crate::warp::{warp_prep, warp_put};

// The block as put.
pub fn put_kind<P: Sample>(
    d: DepthNumbers,
    k: Kind,
    src: &[P],
    l: Layout,
    subpel: &[i8],
    ext: &[i8],
    warp: &[i8],
    dst: &mut [P],
)
    requires { Windowed k (length src.now) l.src_stride l.w l.h (length subpel.now) (length ext.now) (length warp.now)
        × Rows (length dst.old) l.dst_stride l.w l.h × P.bits_ok d.bits × P.bias_ok d.bias × P.max_ok d.max }
    ensures { P.values dst.new ≡ fill (P.values dst.old) l.dst_stride l.w l.h
        (λ i j. put_rule d.max d.bits subpel.now ext.now warp.now k l.w l.h i j
        (around_part (kind_number k) (P.values src.now) l.src_stride i j)) }
{
    let w = l.w;
    let h = l.h;
    let s = l.src_stride;
    let o = 3 * s + 3; // the block's first pixel, behind a margin of 3
    match k {
        Kind::Copy => {
            let first = top_down(0, s);
            put_rows(dst, l.dst_stride, src, first, w, h)
        }
        Kind::Subpel(m) => {
            let first = top_down(o, s);
            put_8tap_rows(d, dst, src, first, l, m, subpel, ext)
        }
        Kind::Bilinear(m) => {
            let f = up32(m.mx);
            let g = up32(m.my);
            let first = top_down(0, s);
            put_bilin_rows(d, dst, l.dst_stride, src, first, w, h, f, g)
        }
        Kind::Warp(m) => {
            let first = top_down(o, s);
            warp_put(d, dst, l.dst_stride, src, first, m, warp)
        }
    }
}

// The block as intermediates: prep, and 8x8t of warp.
pub fn prep_kind<P: Sample>(
    d: DepthNumbers,
    k: Kind,
    src: &[P],
    l: Layout,
    subpel: &[i8],
    ext: &[i8],
    warp: &[i8],
    tmp: &mut [i16],
)
    requires { Windowed k (length src.now) l.src_stride l.w l.h (length subpel.now) (length ext.now) (length warp.now)
        × Rows (length tmp.old) l.dst_stride l.w l.h × P.bits_ok d.bits × P.bias_ok d.bias }
    ensures { tmp.new ≡ fill tmp.old l.dst_stride l.w l.h
        (λ i j. prep_rule d.bits d.bias subpel.now ext.now warp.now k l.w l.h i j
        (around_part (kind_number k) (P.values src.now) l.src_stride i j)) }
{
    let w = l.w;
    let h = l.h;
    let s = l.src_stride;
    let o = 3 * s + 3; // the block's first pixel, behind a margin of 3
    match k {
        Kind::Copy => {
            let first = top_down(0, s);
            prep_rows(d, tmp, l.dst_stride, src, first, w, h)
        }
        Kind::Subpel(m) => {
            let first = top_down(o, s);
            prep_8tap_rows(d, tmp, src, first, l, m, subpel, ext)
        }
        Kind::Bilinear(m) => {
            let f = up32(m.mx);
            let g = up32(m.my);
            let first = top_down(0, s);
            prep_bilin_rows(d, tmp, l.dst_stride, src, first, w, h, f, g)
        }
        Kind::Warp(m) => {
            let first = top_down(o, s);
            warp_prep(d, tmp, l.dst_stride, src, first, m, warp)
        }
    }
}
