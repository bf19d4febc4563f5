// Runs the code on document 01's worked numbers, C1 to C10, through the functions that the decoder calls. Prints each name, then ok or bad.
#![tactic(auto)]

use blocks::bilinear::hv_put_bilin;
use blocks::combine::{hv_avg, hv_w_avg};
use blocks::edge::hv_emu_edge;
use blocks::shear::hv_get_shear_params;
use blocks::subpel::{hv_prep_8tap, hv_put_8tap};
use blocks::w_mask::hv_w_mask;
use std::io;

fn say(rt: &impl Print, n: u64, ok: bool) -> io::Result<()> {
    print!(rt; "C{n}")?;
    if ok {
        println!(rt; " ok")
    } else {
        println!(rt; " bad")
    }
}

// "avg of 3200 and 3200 is 200"
fn c1() -> bool {
    let mut d = [0u8; 1];
    let answer = hv_avg(8, &mut d, 1, &[3200i16; 1], &[3200i16; 1], 1, 1);
    answer.is_ok() & (d[0] == 200)
}

// "depth 10, 8176 twice gives 1023"
fn c2() -> bool {
    let mut d = [0u16; 1];
    let answer = hv_avg(10, &mut d, 1, &[8176i16; 1], &[8176i16; 1], 1, 1);
    answer.is_ok() & (d[0] == 1023)
}

// "3200 and 0 at weight 12 give 150"
fn c3() -> bool {
    let mut d = [0u8; 1];
    let answer = hv_w_avg(8, &mut d, 1, &[3200i16; 1], &[0i16; 1], 1, 1, 12);
    answer.is_ok() & (d[0] == 150)
}

// "weight m for differences 0, 3200, 6647, 6648 is 38, 50, 63, 64"
fn c4() -> bool {
    let mut d = [0u8; 4];
    let mut m = [0u8; 4];
    let a = [0i16, 3200, 6647, 6648];
    let answer = hv_w_mask(
        8, &mut d, 4, &a, &[0i16; 4], 4, 1, &mut m, 4, 0, false, false,
    );
    answer.is_ok() & (m[0] == 38) & (m[1] == 50) & (m[2] == 63) & (m[3] == 64)
}

// The mask of a pair of weights 50 and 39, which the differences 3200 and 256 have; 0 where refused.
fn pair(sign: i32) -> u8 {
    let mut d = [0u8; 2];
    let mut m = [0u8; 1];
    let a = [3200i16, 256];
    let answer = hv_w_mask(
        8, &mut d, 2, &a, &[0i16; 2], 2, 1, &mut m, 1, sign, true, false,
    );
    if answer.is_ok() { m[0] } else { 0 }
}

// "weights 50 and 39, ss_hor only: 45 with sign 0, 44 with sign 1"
fn c5() -> bool {
    (pair(0) == 45) & (pair(1) == 44)
}

// "bilinear put of 10, 21 at horizontal 5 is 13"
fn c6() -> bool {
    let mut d = [0u8; 1];
    let answer = hv_put_bilin(8, &mut d, 1, &[10u8, 21], 2, 1, 1, 5, 0);
    answer.is_ok() & (d[0] == 13)
}

// A table whose family 3, which serves a side of 4 or less, has 64 and then 30 on the pixel itself in its filters 0 and 1, for the fractions 1 and 2.
fn table() -> [i8; 600] {
    let mut t = [0i8; 600];
    t[363] = 64;
    t[371] = 30;
    t
}

// The pixel that 8-tap puts at the middle of a plane of ones; 255 where refused.
fn put_ones(mx: i32, my: i32) -> u8 {
    let mut d = [255u8; 1];
    let answer = hv_put_8tap(
        8,
        &mut d,
        1,
        &[1u8; 64],
        27,
        8,
        1,
        1,
        mx,
        my,
        0,
        &table(),
        &[0i8; 0],
    );
    if answer.is_ok() { d[0] } else { 255 }
}

// "S = 30, N = 6: put is 1 horizontally, 0 vertically"
fn c7() -> bool {
    (put_ones(2, 0) == 1) & (put_ones(0, 2) == 0)
}

// "second-pass S = 480, N = 6: put 0; prep 8, which averaged with itself is 1": the first pass gives 16
fn c8() -> bool {
    let mut t = [0i16; 1];
    let mut d = [0u8; 1];
    let first = hv_prep_8tap(
        8,
        &mut t,
        1,
        &[1u8; 64],
        27,
        8,
        1,
        1,
        1,
        2,
        0,
        &table(),
        &[0i8; 0],
    );
    let second = hv_avg(8, &mut d, 1, &t, &t, 1, 1);
    (put_ones(1, 2) == 0) & first.is_ok() & (t[0] == 8) & second.is_ok() & (d[0] == 1)
}

// "plane rows 1 2 3 / 4 5 6, block 4 x 3 at (-1, 0): 1 1 2 3 / 4 4 5 6 / 4 4 5 6"
fn c9() -> bool {
    let mut d = [0u8; 12];
    let answer = hv_emu_edge(4, 3, 3, 2, -1, 0, &mut d, 4, &[1u8, 2, 3, 4, 5, 6], 3);
    answer.is_ok() & (d == [1u8, 1, 2, 3, 4, 4, 5, 6, 4, 4, 5, 6])
}

// Q(v), which is the shear b of a matrix whose entry 3 is v; 1 where refused.
fn q(v: i32) -> i16 {
    let mut matrix = [0i32, 0, 65536, v, 0, 65536];
    let mut abcd = [1i16; 4];
    let mut affine = 0;
    hv_get_shear_params(&mut matrix, &mut abcd, &mut affine, &[0u16; 129]);
    abcd[1]
}

// "Q of 31, 32, -31, -32, 32767 is 0, 64, 0, -64, 32704"
fn c10() -> bool {
    (q(31) == 0) & (q(32) == 64) & (q(-31) == 0) & (q(-32) == -64) & (q(32767) == 32704)
}

fn main(rt: HostRuntime) -> io::Result<()> {
    say(&rt, 1, c1())?;
    say(&rt, 2, c2())?;
    say(&rt, 3, c3())?;
    say(&rt, 4, c4())?;
    say(&rt, 5, c5())?;
    say(&rt, 6, c6())?;
    say(&rt, 7, c7())?;
    say(&rt, 8, c8())?;
    say(&rt, 9, c9())?;
    say(&rt, 10, c10())
}
