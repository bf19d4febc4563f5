// The warp model: a divisor's reciprocal, the four shears, and the offsets that a motion gives.
ghost use Rattle.std.specs.Prelude.{◌≡◌, ◌^◌, ◌<◌, ◌≤◌, pos, negsuc, nat_abs, length};
ghost use Rattle.rows.specs.Numbers.{at, between, clip_to};
ghost use Rattle.rows.specs.Shear.{Q, top_bit, recip_place, g, shear_c, shear_d, affine_of, middle, offset_of};
ghost use Rattle.blocks.specs.Refuse.{told, lowest};
ghost use Rattle.blocks.specs.inner.Ready.{Divides, Entries, Moves};
ghost use Rattle.blocks.specs.Shear.{recip_ok, divisor_tests, divisor_of, entries_ok, shear_tests, sheared, ShearAnswer, affine_mv_tests, with_mv, AffineMvAnswer};

use crate::numbers::{abs32, abs64, within};
use crate::refuse::{Refusal, needed};
use rows::numbers::{keep32, wrapping_neg32, wrapping_sub32};

// A matrix of six entries, its four shears, and whether the model is affine.
#[derive(Clone, Copy)]
pub struct WarpParams {
    pub matrix: [i32; 6],
    pub abcd: [i16; 4],
    pub affine: i32,
}

// A reciprocal y and its shift, or the number that refuses.
#[derive(Clone, Copy)]
pub struct Divisor {
    pub number: u32,
    pub y: i32,
    pub shift: i32,
}

// A record as it comes back, with the number.
#[derive(Clone, Copy)]
pub struct Answered {
    pub number: u32,
    pub warp: WarpParams,
}

// v clamped to -32768 to 32704.
fn clip_wmp(v: i32) -> i16
    ensures { result ≡ clip_to (negsuc 32767) (pos 32704) v }
{
    if v < -32768 {
        -32768
    } else if v > 32704 {
        32704
    } else {
        v as i16
    }
}

// Q
fn iclip_wmp(v: i32) -> i16
    ensures { result ≡ Q v }
{
    clip_wmp((keep32(v as i64 + 32 - (v < 0) as i64) >> 6) * 64)
}

// The top bit of a number that isn't 0.
fn top_bit(d: u32) -> u32
    requires { 0 < d }
    ensures { result ≡ top_bit d }
{
    31 - u32::leading_zeros(d)
}

// Where the reciprocal of d stands in the table, by d's top bit t.
fn recip_place(d: u32, t: u32) -> usize
    requires { (0 < d) × (t ≡ top_bit d) }
    ensures { (result ≡ recip_place d) × (result ≤ 128) }
{
    let e = d - (1u32 << t);
    if t <= 7 {
        (e << (7 - t)) as usize
    } else {
        ((e + (1u32 << (t - 8))) >> (t - 7)) as usize
    }
}

// The table of reciprocals has 129 numbers.
#[tactic(auto, unfolding(crate::specs::Shear::recip_ok))]
fn recip_ok(rl: usize) -> bool
    ensures { result ≡ recip_ok rl }
{
    rl == 129
}

#[tactic(auto, unfolding(crate::specs::Refuse::need))]
fn check_divisor(d: u32, rl: usize) -> Result<(), Refusal>
    ensures { told result ≡ lowest (divisor_tests d rl) }
{
    needed((1 <= d) & (d <= 2147483647), Refusal::Number)?;
    needed(recip_ok(rl), Refusal::Table)
}

pub fn resolve_divisor_32(d: u32, recip: &[u16]) -> Divisor
    ensures { result ≡ divisor_of d recip.now }
{
    if let Err(why) = check_divisor(d, recip.len()) {
        return Divisor {
            number: why.number(),
            y: 0,
            shift: 0,
        };
    }
    let t = top_bit(d);
    let f = recip_place(d, t);
    let y = recip[f] as i32;
    let shift = t as i32 + 9;
    Divisor {
        number: 0,
        y,
        shift,
    }
}

pub fn hv_resolve_divisor_32(d: u32, recip: &[u16], y: &mut i32, shift: &mut i32) -> u32
    ensures { ◌≡◌ {A = Divisor} (record { number = result; y = y.new; shift = shift.new }) (divisor_of d recip.now) }
{
    let r = resolve_divisor_32(d, recip);
    let a = r.y;
    let b = r.shift;
    *y = a;
    *shift = b;
    r.number
}

// g: (|v| + 2^(k-1)) >> k, cut to 32 bits, with the sign of v.
fn round_shift(v: i64, k: u32) -> i32
    requires { (nat_abs v < 2 ^ 62) × (1 ≤ k) × (k ≤ 40) }
    ensures { result ≡ g k v }
{
    let q = keep32(((abs64(v) + (1u64 << (k - 1))) >> k) as i64);
    if v < 0 { wrapping_neg32(q) } else { q }
}

fn shear_c(m4: i32, y: i32, k: u32) -> i16
    requires { (nat_abs m4 ≤ 2 ^ 22) × (nat_abs y < 2 ^ 16) × (1 ≤ k) × (k ≤ 40) }
    ensures { result ≡ shear_c m4 y k }
{
    iclip_wmp(round_shift(65536 * m4 as i64 * y as i64, k))
}

fn shear_d(m3: i32, m4: i32, m5: i32, y: i32, k: u32) -> i16
    requires { (nat_abs m3 ≤ 2 ^ 22) × (nat_abs m4 ≤ 2 ^ 22) × (nat_abs y < 2 ^ 16) × (1 ≤ k) × (k ≤ 40) }
    ensures { result ≡ shear_d m3 m4 m5 y k }
{
    let v = m3 as i64 * m4 as i64 * y as i64;
    iclip_wmp(wrapping_sub32(wrapping_sub32(m5, round_shift(v, k)), 65536))
}

fn affine_flag(a: i16, b: i16, c: i16, d: i16) -> i32
    ensures { result ≡ affine_of a b c d }
{
    let first = 4 * abs32(a as i32) + 7 * abs32(b as i32);
    let second = 4 * abs32(c as i32) + 4 * abs32(d as i32);
    ((first < 196608) & (second < 196608)) as i32
}

fn entries_ok(matrix: [i32; 6]) -> bool
    ensures { result ≡ entries_ok matrix }
{
    within(matrix[2], 4194304)
        & within(matrix[3], 4194304)
        & within(matrix[4], 4194304)
        & within(matrix[5], 4194304)
}

#[tactic(auto, unfolding(crate::specs::Refuse::need))]
fn check_shear(matrix: [i32; 6], rl: usize) -> Result<(), Refusal>
    ensures { told result ≡ lowest (shear_tests matrix rl) }
{
    needed(entries_ok(matrix), Refusal::Number)?;
    needed(recip_ok(rl), Refusal::Table)?;
    needed(matrix[2] > 0, Refusal::Matrix)
}

fn with_shears(wm: WarpParams, recip: &[u16]) -> WarpParams
    requires { Entries wm.matrix × Divides (nat_abs (at wm.matrix 2)) (length recip.now) }
    ensures { result ≡ sheared wm recip.now }
{
    let matrix = wm.matrix;
    let m2 = matrix[2];
    let m3 = matrix[3];
    let m4 = matrix[4];
    let m5 = matrix[5];
    let r = resolve_divisor_32(abs32(m2), recip);
    let y = r.y;
    let k = r.shift as u32;
    let a = iclip_wmp(wrapping_sub32(m2, 65536));
    let b = iclip_wmp(m3);
    let c = shear_c(m4, y, k);
    let d = shear_d(m3, m4, m5, y, k);
    let affine = affine_flag(a, b, c, d);
    let abcd = [a, b, c, d];
    WarpParams {
        matrix,
        abcd,
        affine,
    }
}

pub fn get_shear_params(wm: WarpParams, recip: &[u16]) -> Answered
    ensures { ShearAnswer wm recip.now result.number result.warp }
{
    match check_shear(wm.matrix, recip.len()) {
        Err(why) => Answered {
            number: why.number(),
            warp: wm,
        },
        Ok(()) => Answered {
            number: 0,
            warp: with_shears(wm, recip),
        },
    }
}

pub fn hv_get_shear_params(
    matrix: &mut [i32; 6],
    abcd: &mut [i16; 4],
    affine: &mut i32,
    recip: &[u16],
) -> u32
    ensures { ShearAnswer (record { matrix = matrix.entry.now; abcd = abcd.old; affine = affine.old }) recip.now
        result (record { matrix = matrix.exit.now; abcd = abcd.new; affine = affine.new }) }
{
    let wm = WarpParams {
        matrix: *matrix,
        abcd: *abcd,
        affine: *affine,
    };
    let r = get_shear_params(wm, recip);
    let number = r.number;
    if number != 0 {
        return number;
    }
    let w = r.warp;
    let m = w.matrix;
    let s = w.abcd;
    *matrix = m;
    *abcd = s;
    let f = w.affine;
    *affine = f;
    number
}

// 4 b4 + 2 size4 - 1
fn middle_of(b4: i32, size4: i32) -> i32
    requires { (nat_abs b4 ≤ 16384) × (nat_abs size4 ≤ 64) }
    ensures { (result ≡ middle b4 size4) × (nat_abs result ≤ 2 ^ 17) }
{
    4 * b4 + 2 * size4 - 1
}

// v clamped to -134217728 to 134217664.
fn clip_entry(v: i64) -> i32
    ensures { result ≡ clip_to (negsuc 134217727) (pos 134217664) v }
{
    if v < -134217728 {
        -134217728
    } else if v > 134217664 {
        134217664
    } else {
        v as i32
    }
}

// 8192 mv - x p - y q, clipped.
fn offset_of(mv: i32, x: i32, p: i32, y: i32, q: i32) -> i32
    requires { (nat_abs mv ≤ 2 ^ 20) × (nat_abs x ≤ 2 ^ 17) × (nat_abs p ≤ 2 ^ 23) × (nat_abs y ≤ 2 ^ 17) × (nat_abs q ≤ 2 ^ 23) }
    ensures { result ≡ offset_of mv x p y q }
{
    clip_entry(8192 * mv as i64 - x as i64 * p as i64 - y as i64 * q as i64)
}

fn lies(lo: i32, hi: i32, v: i32) -> bool
    ensures { result ≡ between lo hi v }
{
    (lo <= v) & (v <= hi)
}

#[tactic(auto, unfolding(crate::specs::Refuse::need))]
fn check_affine_mv(
    bw4: i32,
    bh4: i32,
    mv_x: i32,
    mv_y: i32,
    matrix: [i32; 6],
    bx4: i32,
    by4: i32,
) -> Result<(), Refusal>
    ensures { told result ≡ lowest (affine_mv_tests bw4 bh4 mv_x mv_y matrix bx4 by4) }
{
    needed(lies(1, 64, bw4), Refusal::Size)?;
    needed(lies(1, 64, bh4), Refusal::Size)?;
    needed(lies(0, 16384, bx4), Refusal::Number)?;
    needed(lies(0, 16384, by4), Refusal::Number)?;
    needed(within(mv_x, 1048576), Refusal::Number)?;
    needed(within(mv_y, 1048576), Refusal::Number)?;
    needed(entries_ok(matrix), Refusal::Number)
}

fn with_mv(
    bw4: i32,
    bh4: i32,
    mv_x: i32,
    mv_y: i32,
    wm: WarpParams,
    bx4: i32,
    by4: i32,
) -> WarpParams
    requires { Moves bw4 bh4 mv_x mv_y bx4 by4 × Entries wm.matrix }
    ensures { result ≡ record { matrix = with_mv bw4 bh4 mv_x mv_y wm.matrix bx4 by4; abcd = wm.abcd; affine = wm.affine } }
{
    let mut matrix = wm.matrix;
    let abcd = wm.abcd;
    let affine = wm.affine;
    let x = middle_of(bx4, bw4);
    let y = middle_of(by4, bh4);
    let m2 = matrix[2];
    let m3 = matrix[3];
    let m4 = matrix[4];
    let m5 = matrix[5];
    let e0 = offset_of(mv_x, x, m2 - 65536, y, m3);
    let e1 = offset_of(mv_y, x, m4, y, m5 - 65536);
    matrix[0] = e0;
    matrix[1] = e1;
    WarpParams {
        matrix,
        abcd,
        affine,
    }
}

pub fn set_affine_mv2d(
    bw4: i32,
    bh4: i32,
    mv_x: i32,
    mv_y: i32,
    wm: WarpParams,
    bx4: i32,
    by4: i32,
) -> Answered
    ensures { AffineMvAnswer bw4 bh4 mv_x mv_y wm.matrix bx4 by4 result.number result.warp.matrix
        × (result.warp.abcd ≡ wm.abcd) × (result.warp.affine ≡ wm.affine) }
{
    match check_affine_mv(bw4, bh4, mv_x, mv_y, wm.matrix, bx4, by4) {
        Err(why) => Answered {
            number: why.number(),
            warp: wm,
        },
        Ok(()) => Answered {
            number: 0,
            warp: with_mv(bw4, bh4, mv_x, mv_y, wm, bx4, by4),
        },
    }
}

pub fn hv_set_affine_mv2d(
    bw4: i32,
    bh4: i32,
    mv_x: i32,
    mv_y: i32,
    matrix: &mut [i32; 6],
    bx4: i32,
    by4: i32,
) -> u32
    ensures { AffineMvAnswer bw4 bh4 mv_x mv_y matrix.old bx4 by4 result matrix.new }
{
    let wm = WarpParams {
        matrix: *matrix,
        abcd: [0; 4],
        affine: 0,
    };
    let r = set_affine_mv2d(bw4, bh4, mv_x, mv_y, wm, bx4, by4);
    let number = r.number;
    if number != 0 {
        return number;
    }
    let w = r.warp;
    let m = w.matrix;
    *matrix = m;
    number
}
