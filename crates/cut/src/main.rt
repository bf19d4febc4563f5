// Demand 3 as a program: blocks are predicted tile by tile across the borders of a plane of 2 x 2 pixels at 10 bits, 0 200 / 100 40.
// Prints the answer, then dst row by row; its last column is no block's, and stays 9.
#![tactic(auto)]

ghost use Rattle.std.specs.Prelude.{◌<◌};

use std::io;
use tiles::predict_in_tiles;

mod tiles;

// What stands before number i: a line's end or a space.
fn gap(rt: &impl Print, i: usize, stride: usize) -> io::Result<()>
    requires { 0 < stride }
{
    if i % stride == 0 {
        println!(rt)
    } else {
        print!(rt; " ")
    }
}

fn show(rt: &impl Print, number: u32, d: &[u16], stride: usize) -> io::Result<()>
    requires { 0 < stride }
{
    print!(rt; "{number}")?;
    for i in 0..d.len() {
        gap(rt, i, stride)?;
        print!(rt; "{}", d[i])?;
    }
    gap(rt, 0, stride)
}

// 3 x 3 from column -1 of row -1 on, from one pixel before the plane to its last, at the fractions mx and my. Tiles are 1 x 2, then 1 x 1.
fn corner(rt: &impl Print, kind: u32, mx: i32, my: i32) -> io::Result<()> {
    let mut d = [9u16; 12];
    let number = predict_in_tiles(
        10,
        2,
        2,
        false,
        false,
        0,
        &[0u16, 200, 100, 40],
        2,
        kind,
        -1,
        -1,
        3,
        3,
        mx,
        my,
        0,
        &[8i8; 600],
        &[0i8; 0],
        &[0i8; 0],
        1,
        2,
        &mut [0u16; 128],
        &mut d,
        4,
    );
    show(rt, number, &d, 4)
}

// 12 x 2 from column -6 of row 0 on, 8-tap along the rows: the mean of the eight pixels from 3 before to 4 after. At column x, n = x + 4 of them, none at
// least and eight at most, are right of the plane's first column. Row 0 has 25n, row 1 the whole part of 100 - 7.5n + 0.53: a sum of 64 x the mean,
// 32 and 2 added, and shifted by 6. Tiles are 5 and 7 columns wide, on the block's side of four.
fn wide(rt: &impl Print) -> io::Result<()> {
    let mut d = [9u16; 26];
    let number = predict_in_tiles(
        10,
        2,
        2,
        false,
        false,
        0,
        &[0u16, 200, 100, 40],
        2,
        1,
        -6,
        0,
        12,
        2,
        1,
        0,
        0,
        &[8i8; 600],
        &[0i8; 0],
        &[0i8; 0],
        5,
        1,
        &mut [0u16; 128],
        &mut d,
        13,
    );
    show(rt, number, &d, 13)
}

fn main(rt: HostRuntime) -> io::Result<()> {
    // the border repeats
    corner(&rt, 0, 0, 0)?;
    // halfway on both axes: the mean of four, as (0 + 200 + 100 + 40) / 4 = 85
    corner(&rt, 2, 8, 8)?;
    wide(&rt)
}
