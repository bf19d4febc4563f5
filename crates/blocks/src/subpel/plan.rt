// The tests of 8-tap, the filter of an axis, and the plan of a block: which of the four cases it is.
ghost use Rattle.std.specs.Prelude.{◌≡◌, ◌+◌, ◌*◌, ◌^◌, ◌≤◌, ◌<◌, length};
ghost use Rattle.rows.specs.Numbers.{up};
ghost use Rattle.rows.specs.Subpel.{filter_bits};
ghost use Rattle.blocks.specs.Refuse.{told, lowest, reads};
ghost use Rattle.blocks.specs.Subpel.{type_ok, fraction_ok, filter_in, on, subpel_tests};
ghost use Rattle.blocks.specs.inner.Subpel.{axis_of, filter_of, Held, taps_of, in_memory, by_one, plan_of, plan_from};

use crate::numbers::{on_axis, up32};
use crate::refuse::{Layout, Refusal, holds_rows, needed, reads_around, size_ok, stride_ok};
use crate::source::{Stand, row_first, stand_at};
use rows::numbers::half_power;
use rows::subpel::eight;

// The motion of an 8-tap block: the two fractions and the filter type.
#[derive(Clone, Copy)]
pub struct SubpelMotion {
    pub mx: i32,
    pub my: i32,
    pub filter_type: i32,
}

// A filter type.
pub fn type_ok(filter_type: i32) -> bool
    ensures { result ≡ type_ok filter_type }
{
    (-1 <= filter_type) & (filter_type <= 2)
}

// A fraction of the type.
pub fn fraction_ok(filter_type: i32, f: i32) -> bool
    ensures { result ≡ fraction_ok filter_type f }
{
    ((0 <= f) & (f <= 15)) | ((filter_type < 0) & (0 <= f))
}

// The fraction's filter is in ext, where it comes from there.
pub fn filter_in(filter_type: i32, f: i32, el: usize) -> bool
    ensures { result ≡ filter_in filter_type f el }
{
    (0 <= filter_type) | (8 * up32(f) as usize <= el)
}

// sl places hold those of each tap, with a filter on an axis where x or y is 1.
fn reads_taps(sl: usize, o: usize, s: usize, w: usize, h: usize, x: usize, y: usize) -> bool
    requires { (s ≤ 32768) × (w ≤ 64) × (1 ≤ w) × (1 ≤ h) × (h ≤ 64) × (x ≤ 1) × (y ≤ 1) }
    ensures { result ≡ reads sl o s w h (3 * x) (4 * x) (3 * y) (4 * y) }
{
    reads_around(sl, o, s, w, h, 3 * x, 4 * x, 3 * y, 4 * y)
}

#[tactic(auto, using(crate::proofs::Laws::Calls::Refuse::size_met, crate::proofs::Laws::Calls::Refuse::stride_met), unfolding(crate::specs::Refuse::need, crate::specs::Refuse::whole_filters, crate::specs::Subpel::subpel_ok))]
pub fn check_8tap(
    deep: bool,
    dl: usize,
    sl: usize,
    src_off: usize,
    l: Layout,
    m: SubpelMotion,
    tl: usize,
    el: usize,
) -> Result<(), Refusal>
    ensures { told result ≡ lowest (subpel_tests deep dl l.dst_stride sl src_off l.src_stride l.w l.h
        m.mx m.my m.filter_type tl el) }
{
    let w = l.w;
    let h = l.h;
    let t = m.filter_type;
    needed(size_ok(64, w), Refusal::Size)?;
    needed(size_ok(64, h), Refusal::Size)?;
    needed(stride_ok(w, l.dst_stride), Refusal::Stride)?;
    needed(stride_ok(w, l.src_stride), Refusal::Stride)?;
    needed(deep, Refusal::Number)?;
    needed(type_ok(t), Refusal::Number)?;
    needed(fraction_ok(t, m.mx), Refusal::Number)?;
    needed(fraction_ok(t, m.my), Refusal::Number)?;
    needed(tl == 600, Refusal::Table)?;
    needed(el % 8 == 0, Refusal::Table)?;
    needed(filter_in(t, m.mx, el), Refusal::Table)?;
    needed(filter_in(t, m.my, el), Refusal::Table)?;
    let x = on_axis(m.mx);
    let y = on_axis(m.my);
    needed(
        reads_taps(sl, src_off, l.src_stride, w, h, x, y),
        Refusal::Read,
    )?;
    needed(holds_rows(dl, l.dst_stride, w, h), Refusal::Written)
}

// The filter of an axis: none, or the number of one in a lent table.
#[derive(Clone, Copy)]
pub enum Filter {
    Off,
    Ext(usize),
    Subpel(usize),
}

// A side of four or less has its own families.
fn get_filter(f: i32, filter_type: i32, side: usize) -> Filter
    ensures { result ≡ filter_of filter_type (up f) side }
{
    let n = up32(f) as usize;
    if n == 0 {
        return Filter::Off;
    }
    if filter_type < 0 {
        return Filter::Ext(n - 1);
    }
    let t = up32(filter_type) as usize;
    if side <= 4 {
        return Filter::Subpel(15 * (3 + t % 2) + (n - 1));
    }
    Filter::Subpel(15 * t + (n - 1))
}

fn taps(subpel: &[i8], ext: &[i8], k: Filter) -> [i8; 8]
    requires { Held (length subpel.now) (length ext.now) k }
    ensures { result ≡ taps_of (axis_of subpel.now ext.now k) }
{
    match k {
        Filter::Off => [0i8; 8],
        Filter::Ext(n) => eight(ext, n),
        Filter::Subpel(n) => eight(subpel, n),
    }
}

// N
fn filter_bits(filter_type: i32) -> u32
    ensures { result ≡ filter_bits filter_type }
{
    if filter_type < 0 { 7 } else { 6 }
}

// Taps down a column in the order in which their rows stand in memory: the other way round where each row stands before the one above it.
fn in_memory(f: [i8; 8], back: usize) -> [i8; 8]
    ensures { result ≡ in_memory back f }
{
    if back == 0 {
        return f;
    }
    let mut r = [0i8; 8];
    for t in 0..8 {
        r[t] = f[7 - t];
    }
    r
}

// How the rows of a block are made: N, whether the second filter follows, where the first taps of the first filter stand in each row and how far apart its
// taps are, put's rounding with one filter, and the taps.
#[derive(Clone, Copy)]
pub struct Plan {
    pub bits: u32,
    pub both: bool,
    pub rows: Stand,
    pub step: usize,
    pub round: u32,
    pub first: [i8; 8],
    pub second: [i8; 8],
}

fn by_one(bits: u32, rows: Stand, step: usize, round: u32, f: [i8; 8]) -> Plan
    ensures { result ≡ by_one bits rows step round f }
{
    Plan {
        bits,
        both: false,
        rows,
        step,
        round,
        first: f,
        second: f,
    }
}

// The four cases.
pub fn plan_8tap(
    s: Stand,
    w: usize,
    h: usize,
    m: SubpelMotion,
    b: u32,
    subpel: &[i8],
    ext: &[i8],
) -> Plan
    requires { (b ≤ 4) × (3 * on m.my * s.forth + 4 * on m.my * s.back + 3 * on m.mx ≤ s.off) × (s.off + 3 * on m.my * s.back < 2 ^ 64)
        × Held (length subpel.now) (length ext.now) (filter_of m.filter_type (up m.mx) w)
        × Held (length subpel.now) (length ext.now) (filter_of m.filter_type (up m.my) h) }
    ensures { result ≡ plan_of s w h subpel.now ext.now
        m.filter_type (filter_bits m.filter_type) b (up m.mx) (up m.my) }
{
    let t = m.filter_type;
    let n = filter_bits(t);
    let f = taps(subpel, ext, get_filter(m.mx, t, w));
    let g = taps(subpel, ext, get_filter(m.my, t, h));
    let x = on_axis(m.mx);
    let y = on_axis(m.my);
    let round = half_power(n);
    if x == 0 {
        if y == 0 {
            return by_one(n, s, 0, round, g);
        }
        let low = stand_at(s, s.off - (3 * s.forth + 4 * s.back));
        let g = in_memory(g, s.back);
        return by_one(n, low, s.forth + s.back, round, g);
    }
    let round = round + half_power(n - b);
    if y == 0 {
        let left = stand_at(s, s.off - 3);
        return by_one(n, left, 1, round, f);
    }
    let above = stand_at(s, s.off + 3 * s.back - (3 * s.forth + 3));
    Plan {
        bits: n,
        both: true,
        rows: above,
        step: 1,
        round,
        first: f,
        second: g,
    }
}

// The same from row y on.
pub fn plan_from(p: Plan, y: usize) -> Plan
    requires { (y * p.rows.back ≤ p.rows.off) × (p.rows.off + y * p.rows.forth < 2 ^ 64) }
    ensures { result ≡ plan_from p y }
{
    let s = p.rows;
    let rows = stand_at(s, row_first(s, y));
    let first = p.first;
    let second = p.second;
    Plan {
        bits: p.bits,
        both: p.both,
        rows,
        step: p.step,
        round: p.round,
        first,
        second,
    }
}
