// put_8tap_scaled, prep_8tap_scaled, put_bilin_scaled and prep_bilin_scaled: blocks from a reference of another size. The source's rows are filtered along, one
// after the other; the last eight of them, two for bilinear, are kept, and each row of the block is made of those.
ghost use Rattle.blocks.specs.Refuse.{told};
ghost use Rattle.std.specs.Prelude.{◌≡◌, ◌+◌, ◌-◌, ◌*◌, ◌≤◌, pos, length, get_or};
ghost use Rattle.rows.specs.Numbers.{up, at, clip, low16, minus16};
ghost use Rattle.rows.specs.Places.{row_of, fill};
ghost use Rattle.rows.specs.Bilinear.{R, bilin};
ghost use Rattle.rows.specs.Scaled.{position, pixel_of, sixteenth, in_family, put_down, prep_down};
ghost use Rattle.rows.specs.inner.Scaled.{Tabled};
ghost use Rattle.blocks.specs.inner.Ready.{Block, Rows};
ghost use Rattle.blocks.specs.Scaled.{Put8ScaledAnswer, Prep8ScaledAnswer, PutBilinScaledAnswer, PrepBilinScaledAnswer};
ghost use Rattle.blocks.specs.inner.Scaled.{line_of, pair_line_of, LastEight, LastTwo, Turned, Filtered, Paired};

use crate::refuse::Refusal;
use crate::sample::Sample;
use crate::scaled::{
    Lent, ScaledMotion, ScaledPlan, by_parity, by_rows, check_scaled, no_rows, prep_scaled_line,
    scaled_plan, scaled_type_ok, turned,
};
use crate::source::{row_first, top_down};
use rows::bilinear::{mid_bilin_prep_row, mid_bilin_row};
use rows::numbers::half_power;
use rows::scaled::{Columns, scaled_row, tabulate_columns};
use rows::subpel::{Way, eight, mid_by};

// Rows n to m - 1 are filtered, each into the place of the oldest; the answer is the order after them.
fn next_rows<P: Sample>(
    rows: &mut [i16; 512],
    order: [usize; 8],
    n: usize,
    m: usize,
    src: &[P],
    subpel: &[i8],
    p: ScaledPlan,
    w: usize,
) -> [usize; 8]
    requires { LastEight w (line_of (P.values src.now) subpel.now p) n rows.old order × (n ≤ m) × Filtered (length src.now) (length subpel.now) p w m
        × P.bits_ok p.bits }
    ensures { LastEight w (line_of (P.values src.now) subpel.now p) m rows.new result }
{
    let by = Columns {
        start: p.mx,
        step: p.dx,
    };
    let mut order = order;
    for k in n..m {
        order = turned(order);
        let q = order[7] * 64;
        let o = row_first(p.stand, k);
        scaled_row(rows, q, w, src, o, subpel, p.wide, by, p.bits);
    }
    order
}

// Put's last step: the block's row at position p, from the last eight. Without a fraction it is the fourth of them, which bilinear's second pass takes between
// itself and itself.
fn put_scaled_line<P: Sample>(
    dst: &mut [P],
    rows: &[i16],
    order: [usize; 8],
    subpel: &[i8],
    family: usize,
    p: usize,
    bits: u32,
    max: u16,
)
    requires { (length dst.old ≤ 64) × (length rows.now ≡ 512) × Turned order × (length subpel.now ≡ 600) × (family ≤ 4) × P.bits_ok bits × P.max_ok max }
    ensures { P.values dst.new ≡ row_of (length dst.old)
        (λ i. put_down max bits (in_family subpel.now family (sixteenth p)) (λ b. at rows.now (get_or order b 0 * 64 + i))) }
{
    let b = P::bits_of(bits);
    let f = p % 1024 / 64;
    if f == 0 {
        mid_bilin_row(dst, rows, order[3] * 64, 0, 0, 4 + b, max);
    } else {
        let g = by_rows(eight(subpel, 15 * family + (f - 1)), order[0]);
        let by = Way {
            step: 64,
            r: half_power(6 + b),
            n: 6 + b,
        };
        mid_by(dst, rows, 0, &g, false, by, max);
    }
}

// The block by 8-tap.
pub fn put_8tap_scaled_rows<P: Sample>(
    dst: &mut [P],
    dst_stride: usize,
    src: &[P],
    subpel: &[i8],
    p: ScaledPlan,
    max: u16,
    w: usize,
    h: usize,
)
    requires { Block w h × Rows (length dst.old) dst_stride w h
        × Filtered (length src.now) (length subpel.now) p w (pixel_of (position p.my p.dy (h - 1)) + 8) × P.bits_ok p.bits × P.max_ok max }
    ensures { P.values dst.new ≡ fill (P.values dst.old) dst_stride w h
        (λ i j. put_down max p.bits (in_family subpel.now p.high (sixteenth (position p.my p.dy j)))
        (λ b. line_of (P.values src.now) subpel.now p (pixel_of (position p.my p.dy j) + b) i)) }
{
    let mut last = no_rows();
    let mut n = 0;
    for y in 0..h {
        let v = p.my + y * p.dy;
        let m = v / 1024 + 8;
        let was = last.order;
        let order = next_rows(&mut last.rows, was, n, m, src, subpel, p, w);
        last.order = order;
        n = m;
        let d = y * dst_stride;
        put_scaled_line(
            &mut dst[d..d + w],
            &last.rows,
            order,
            subpel,
            p.high,
            v,
            p.bits,
            max,
        );
    }
}

// The same of intermediates.
pub fn prep_8tap_scaled_rows<P: Sample>(
    tmp: &mut [i16],
    tmp_stride: usize,
    src: &[P],
    subpel: &[i8],
    p: ScaledPlan,
    bias: u32,
    w: usize,
    h: usize,
)
    requires { Block w h × Rows (length tmp.old) tmp_stride w h
        × Filtered (length src.now) (length subpel.now) p w (pixel_of (position p.my p.dy (h - 1)) + 8) × P.bits_ok p.bits × P.bias_ok bias }
    ensures { tmp.new ≡ fill tmp.old tmp_stride w h
        (λ i j. prep_down bias (in_family subpel.now p.high (sixteenth (position p.my p.dy j)))
        (λ b. line_of (P.values src.now) subpel.now p (pixel_of (position p.my p.dy j) + b) i)) }
{
    let less = P::bias_of(bias);
    let mut last = no_rows();
    let mut n = 0;
    for y in 0..h {
        let v = p.my + y * p.dy;
        let m = v / 1024 + 8;
        let was = last.order;
        let order = next_rows(&mut last.rows, was, n, m, src, subpel, p, w);
        last.order = order;
        n = m;
        let d = y * tmp_stride;
        prep_scaled_line(
            &mut tmp[d..d + w],
            &last.rows,
            order,
            subpel,
            p.high,
            v,
            less,
        );
    }
}

// Rows n to m - 1 are filtered between pixels, each into the place of the older of two; pixels and fractions are the tables of the plan's columns.
fn next_pairs<P: Sample>(
    rows: &mut [i16],
    n: usize,
    m: usize,
    src: &[P],
    p: ScaledPlan,
    pixels: &[u8; 64],
    fractions: &[u8; 64],
    w: usize,
)
    requires { (length rows.old ≡ 128) × LastTwo w (pair_line_of (P.values src.now) p) n rows.old × (n ≤ m) × Paired (length src.now) p w m × P.bits_ok p.bits
        × Tabled pixels.now fractions.now w p.mx p.dx }
    ensures { LastTwo w (pair_line_of (P.values src.now) p) m rows.new }
{
    for k in n..m {
        let q = k % 2 * 64;
        let o = row_first(p.stand, k);
        P::scaled_bilin_row(&mut rows[q..q + w], src, o, pixels, fractions, p.bits);
    }
}

// The block by bilinear.
pub fn put_bilin_scaled_rows<P: Sample>(
    dst: &mut [P],
    dst_stride: usize,
    src: &[P],
    p: ScaledPlan,
    max: u16,
    w: usize,
    h: usize,
)
    requires { Block w h × Rows (length dst.old) dst_stride w h × Paired (length src.now) p w (pixel_of (position p.my p.dy (h - 1)) + 2)
        × P.bits_ok p.bits × P.max_ok max }
    ensures { P.values dst.new ≡ fill (P.values dst.old) dst_stride w h
        (λ i j. clip max (R (4 + p.bits) (bilin (pair_line_of (P.values src.now) p (pixel_of (position p.my p.dy j)) i)
        (pair_line_of (P.values src.now) p (pixel_of (position p.my p.dy j) + 1) i) (sixteenth (position p.my p.dy j))))) }
{
    let r = 4 + P::bits_of(p.bits);
    let mut pixels = [0u8; 64];
    let mut fractions = [0u8; 64];
    tabulate_columns(&mut pixels, &mut fractions, w, p.mx, p.dx);
    let mut rows = [0i16; 128];
    let mut n = 0;
    for y in 0..h {
        let v = p.my + y * p.dy;
        let m = v / 1024 + 2;
        next_pairs(&mut rows, n, m, src, p, &pixels, &fractions, w);
        n = m;
        let d = y * dst_stride;
        mid_bilin_row(&mut dst[d..d + w], &rows, 0, 64, by_parity(v), r, max);
    }
}

// The same of intermediates.
pub fn prep_bilin_scaled_rows<P: Sample>(
    tmp: &mut [i16],
    tmp_stride: usize,
    src: &[P],
    p: ScaledPlan,
    bias: u32,
    w: usize,
    h: usize,
)
    requires { Block w h × Rows (length tmp.old) tmp_stride w h × Paired (length src.now) p w (pixel_of (position p.my p.dy (h - 1)) + 2)
        × P.bits_ok p.bits × P.bias_ok bias }
    ensures { tmp.new ≡ fill tmp.old tmp_stride w h
        (λ i j. minus16 (low16 (R 4 (bilin (pair_line_of (P.values src.now) p (pixel_of (position p.my p.dy j)) i)
        (pair_line_of (P.values src.now) p (pixel_of (position p.my p.dy j) + 1) i) (sixteenth (position p.my p.dy j))))) (pos bias)) }
{
    let less = P::bias_of(bias) as i16;
    let mut pixels = [0u8; 64];
    let mut fractions = [0u8; 64];
    tabulate_columns(&mut pixels, &mut fractions, w, p.mx, p.dx);
    let mut rows = [0i16; 128];
    let mut n = 0;
    for y in 0..h {
        let v = p.my + y * p.dy;
        let m = v / 1024 + 2;
        next_pairs(&mut rows, n, m, src, p, &pixels, &fractions, w);
        n = m;
        let d = y * tmp_stride;
        mid_bilin_prep_row(&mut tmp[d..d + w], &rows, 0, 64, by_parity(v), 4, less);
    }
}

pub fn hv_put_8tap_scaled<P: Sample>(
    depth: i32,
    dst: &mut [P],
    dst_stride: usize,
    src: &[P],
    src_off: usize,
    src_stride: usize,
    w: usize,
    h: usize,
    mx: i32,
    my: i32,
    dx: i32,
    dy: i32,
    filter_type: i32,
    subpel: &[i8],
) -> Result<(), Refusal>
    ensures { Put8ScaledAnswer (P.depth_ok depth) (up depth) (P.values dst.old) dst_stride (P.values src.now) src_off src_stride w h mx my dx dy
        filter_type subpel.now (told result) (P.values dst.new) }
{
    let m = ScaledMotion { mx, my, dx, dy };
    let l = Lent {
        dl: dst.len(),
        dst_stride,
        sl: src.len(),
        src_off,
        src_stride,
    };
    check_scaled(
        true,
        P::depth_ok(depth),
        scaled_type_ok(filter_type),
        subpel.len() == 600,
        l,
        w,
        h,
        m,
    )?;
    let d = P::depth_numbers(depth);
    let s = top_down(src_off - 3 * src_stride, src_stride); // from three rows above
    let p = scaled_plan(s, m, filter_type, w, h, d.bits);
    put_8tap_scaled_rows(dst, dst_stride, src, subpel, p, d.max, w, h);
    Ok(())
}

pub fn hv_prep_8tap_scaled<P: Sample>(
    depth: i32,
    tmp: &mut [i16],
    tmp_stride: usize,
    src: &[P],
    src_off: usize,
    src_stride: usize,
    w: usize,
    h: usize,
    mx: i32,
    my: i32,
    dx: i32,
    dy: i32,
    filter_type: i32,
    subpel: &[i8],
) -> Result<(), Refusal>
    ensures { Prep8ScaledAnswer (P.depth_ok depth) (up depth) tmp.old tmp_stride (P.values src.now) src_off src_stride w h mx my dx dy
        filter_type subpel.now (told result) tmp.new }
{
    let m = ScaledMotion { mx, my, dx, dy };
    let l = Lent {
        dl: tmp.len(),
        dst_stride: tmp_stride,
        sl: src.len(),
        src_off,
        src_stride,
    };
    check_scaled(
        true,
        P::depth_ok(depth),
        scaled_type_ok(filter_type),
        subpel.len() == 600,
        l,
        w,
        h,
        m,
    )?;
    let d = P::depth_numbers(depth);
    let s = top_down(src_off - 3 * src_stride, src_stride);
    let p = scaled_plan(s, m, filter_type, w, h, d.bits);
    prep_8tap_scaled_rows(tmp, tmp_stride, src, subpel, p, d.bias, w, h);
    Ok(())
}

pub fn hv_put_bilin_scaled<P: Sample>(
    depth: i32,
    dst: &mut [P],
    dst_stride: usize,
    src: &[P],
    src_off: usize,
    src_stride: usize,
    w: usize,
    h: usize,
    mx: i32,
    my: i32,
    dx: i32,
    dy: i32,
) -> Result<(), Refusal>
    ensures { PutBilinScaledAnswer (P.depth_ok depth) (up depth) (P.values dst.old) dst_stride (P.values src.now) src_off src_stride w h mx my dx dy (told result)
        (P.values dst.new) }
{
    let m = ScaledMotion { mx, my, dx, dy };
    let l = Lent {
        dl: dst.len(),
        dst_stride,
        sl: src.len(),
        src_off,
        src_stride,
    };
    check_scaled(false, P::depth_ok(depth), true, true, l, w, h, m)?;
    let d = P::depth_numbers(depth);
    let s = top_down(src_off, src_stride);
    let p = scaled_plan(s, m, 0, w, h, d.bits);
    put_bilin_scaled_rows(dst, dst_stride, src, p, d.max, w, h);
    Ok(())
}

pub fn hv_prep_bilin_scaled<P: Sample>(
    depth: i32,
    tmp: &mut [i16],
    tmp_stride: usize,
    src: &[P],
    src_off: usize,
    src_stride: usize,
    w: usize,
    h: usize,
    mx: i32,
    my: i32,
    dx: i32,
    dy: i32,
) -> Result<(), Refusal>
    ensures { PrepBilinScaledAnswer (P.depth_ok depth) (up depth) tmp.old tmp_stride (P.values src.now) src_off src_stride w h mx my dx dy
        (told result) tmp.new }
{
    let m = ScaledMotion { mx, my, dx, dy };
    let l = Lent {
        dl: tmp.len(),
        dst_stride: tmp_stride,
        sl: src.len(),
        src_off,
        src_stride,
    };
    check_scaled(false, P::depth_ok(depth), true, true, l, w, h, m)?;
    let d = P::depth_numbers(depth);
    let s = top_down(src_off, src_stride);
    let p = scaled_plan(s, m, 0, w, h, d.bits);
    prep_bilin_scaled_rows(tmp, tmp_stride, src, p, d.bias, w, h);
    Ok(())
}
