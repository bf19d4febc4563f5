// Runs each row of the crate `rows` once on extreme values and prints what it left: the widest pixels, taps, intermediates and weights that a
// caller can hand over meet what the rows require. What is printed is compared with document 01's arithmetic, worked out apart from this code.
#![tactic(auto)]

use rows::bilinear::{mid_bilin_prep_row, mid_bilin_row, prep_bilin_row, put_bilin_row};
use rows::blend::{blend_row, morph_row};
use rows::combine::{avg_row, mask_row};
use rows::copy::{copy_row, prep_row};
use rows::edge::edge_row;
use rows::pixel::Pixel;
use rows::scaled::{Columns, scaled_row, tabulate_columns};
use rows::search::sad_row;
use rows::subpel::{mid_prep_row, mid_row, tap_mid_row, tap_row};
use rows::w_mask::{four_row, pair_row, weight_row};
use rows::warp::{Slope, warp_column, warp_prep_row, warp_put_row};
use std::fmt::Display;
use std::io;

// A row's name and the numbers that it left, on a line.
fn show<T: Display>(rt: &impl Print, name: &str, row: &[T]) -> io::Result<()> {
    print!(rt; "{name}")?;
    for n in row {
        print!(rt; " {n}")?;
    }
    println!(rt)
}

fn run_copy(rt: &impl Print) -> io::Result<()> {
    let s8: &[u8] = &[255u8; 1];
    let s16: &[u16] = &[65535u16; 1];
    let mut d8 = [0u8; 1];
    copy_row(&mut d8, s8, 0);
    show(rt, "copy_row8", &d8)?;
    let mut d16 = [0u16; 1];
    copy_row(&mut d16, s16, 0);
    show(rt, "copy_row16", &d16)?;
    let mut t = [0i16; 1];
    prep_row(&mut t, s8, 0, 4, 0);
    show(rt, "prep_row8", &t)?;
    prep_row(&mut t, s16, 0, 4, 8192);
    show(rt, "prep_row16", &t)
}

fn run_combine(rt: &impl Print) -> io::Result<()> {
    let low: &[i16] = &[-32768i16; 2];
    let high: &[i16] = &[32767i16; 2];
    let weights: &[u8] = &[255u8; 2];
    let mut d8 = [0u8; 2];
    avg_row(&mut d8, high, high, 0, 4, 0, 255);
    show(rt, "avg_row8", &d8)?;
    mask_row(&mut d8, high, low, 0, weights, 0, 4, 0, 255);
    show(rt, "mask_row8", &d8)?;
    let mut d16 = [0u16; 2];
    avg_row(&mut d16, low, low, 0, 2, 8192, 4095);
    show(rt, "avg_row16", &d16)?;
    mask_row(&mut d16, high, low, 0, weights, 0, 2, 8192, 4095);
    show(rt, "mask_row16", &d16)
}

fn run_blend(rt: &impl Print) -> io::Result<()> {
    let mut d8 = [255u8; 2];
    blend_row(&mut d8, &[255u8; 2], &[64u8; 2], 0);
    show(rt, "blend_row8", &d8)?;
    let mut d16 = [65535u16; 2];
    blend_row(&mut d16, &[65535u16; 2], &[63u8; 2], 0);
    show(rt, "blend_row16", &d16)?;
    morph_row(&mut d8, -16384, 4194304, 255);
    show(rt, "morph_row8", &d8)?;
    morph_row(&mut d16, 16384, 4194304, 4095);
    show(rt, "morph_row16", &d16)
}

fn run_mask(rt: &impl Print) -> io::Result<()> {
    let weights: &[u8] = &[255u8; 4];
    let mut m = [0u8; 4];
    weight_row(&mut m, &[32767i16; 4], &[-32768i16; 4], 0, 8, 4);
    show(rt, "weight_row", &m)?;
    let mut mask = [0u8; 2];
    pair_row(&mut mask, &m, 1);
    show(rt, "pair_row", &mask)?;
    four_row(&mut mask, weights, weights, 0);
    show(rt, "four_row", &mask)
}

fn run_edge(rt: &impl Print) -> io::Result<()> {
    let mut d8 = [0u8; 4];
    edge_row(&mut d8, &[255u8; 1], 0, 1, -1073741824);
    show(rt, "edge_row8", &d8)?;
    let mut d16 = [0u16; 4];
    edge_row(&mut d16, &[65535u16; 3], 0, 3, 1073741824);
    show(rt, "edge_row16", &d16)
}

fn run_subpel(rt: &impl Print) -> io::Result<()> {
    let f = &[-128i8; 8];
    let g = &[127i8; 8];
    let mut d8 = [0u8; 1];
    tap_row(&mut d8, &[255u8; 8], 0, 1, g, false, 34, 6, 255);
    show(rt, "tap_row8", &d8)?;
    mid_row(&mut d8, &[-32768i16; 8], 0, 1, f, false, 1024, 11, 255);
    show(rt, "mid_row8", &d8)?;
    let mut d16 = [0u16; 1];
    tap_row(&mut d16, &[65535u16; 8], 0, 1, f, false, 64, 7, 4095);
    show(rt, "tap_row16", &d16)?;
    mid_row(&mut d16, &[32767i16; 8], 0, 1, g, false, 512, 10, 1023);
    show(rt, "mid_row16", &d16)
}

fn run_subpel_mids(rt: &impl Print) -> io::Result<()> {
    let g = &[127i8; 8];
    let mut t = [0i16; 1];
    tap_mid_row(&mut t, &[255u8; 8], 0, 1, g, false, 2, 2, 0);
    show(rt, "tap_mid_row8", &t)?;
    tap_mid_row(&mut t, &[65535u16; 8], 0, 1, g, false, 4, 3, 8192);
    show(rt, "tap_mid_row16", &t)?;
    mid_prep_row(
        &mut t,
        &[-32768i16; 8],
        0,
        1,
        &[-128i8; 8],
        false,
        32,
        6,
        8192,
    );
    show(rt, "mid_prep_row", &t)
}

fn run_bilinear(rt: &impl Print) -> io::Result<()> {
    let mut d8 = [0u8; 1];
    put_bilin_row(&mut d8, &[255u8; 2], 0, 1, 15, 0, 8, 4, 255);
    show(rt, "put_bilin_row8", &d8)?;
    mid_bilin_row(&mut d8, &[-32768i16; 2], 0, 1, 15, 8, 255);
    show(rt, "mid_bilin_row8", &d8)?;
    let mut d16 = [0u16; 1];
    put_bilin_row(&mut d16, &[65535u16; 2], 0, 1, 15, 4, 0, 0, 1023);
    show(rt, "put_bilin_row16", &d16)?;
    mid_bilin_row(&mut d16, &[32767i16; 2], 0, 1, 1, 6, 4095);
    show(rt, "mid_bilin_row16", &d16)
}

fn run_bilinear_mids(rt: &impl Print) -> io::Result<()> {
    let mut t = [0i16; 1];
    prep_bilin_row(&mut t, &[255u8; 2], 0, 1, 15, 0, 0);
    show(rt, "prep_bilin_row8", &t)?;
    prep_bilin_row(&mut t, &[65535u16; 2], 0, 1, 15, 2, 8192);
    show(rt, "prep_bilin_row16", &t)?;
    mid_bilin_prep_row(&mut t, &[-32768i16; 2], 0, 1, 15, 4, 8192);
    show(rt, "mid_bilin_prep_row", &t)
}

fn run_search(rt: &impl Print) -> io::Result<()> {
    show(
        rt,
        "sad_row8",
        &[sad_row(&[255u8; 68], 0, &[0u8; 68], 0, 68)],
    )?;
    show(
        rt,
        "sad_row16",
        &[sad_row(&[0u16; 68], 0, &[65535u16; 68], 0, 68)],
    )
}

#[tactic(auto, using(crate::proofs::Warp::there))]
fn run_warp(rt: &impl Print) -> io::Result<()> {
    let low: &[i8] = &[-128i8; 1544];
    let high: &[i8] = &[127i8; 1544];
    let least: &[i16] = &[-32768i16; 113];
    let flat = Slope { m: 0, a: 0, b: 0 };
    let mut mid = [0i16; 15];
    warp_column(&mut mid, &[255u8; 120], 0, 8, high, flat, 7, 3);
    show(rt, "warp_column8", &mid)?;
    warp_column(&mut mid, &[65535u16; 120], 0, 8, high, flat, 7, 5);
    show(rt, "warp_column16", &mid)?;
    let mut d8 = [0u8; 8];
    warp_put_row(&mut d8, least, 0, low, flat, 7, 11, 255);
    show(rt, "warp_put_row8", &d8)?;
    let mut d16 = [0u16; 8];
    warp_put_row(&mut d16, &[32767i16; 113], 0, high, flat, 7, 9, 4095);
    show(rt, "warp_put_row16", &d16)?;
    let mut tmp = [0i16; 8];
    warp_prep_row(&mut tmp, least, 0, low, flat, 7, 7, 8192);
    show(rt, "warp_prep_row", &tmp)
}

// 64 columns of the longest step, by the last filter of the table.
fn run_scaled8(rt: &impl Print) -> io::Result<()> {
    let far = Columns {
        start: 1023,
        step: 4096,
    };
    let mut rows = [0i16; 512];
    scaled_row(
        &mut rows,
        448,
        64,
        &[255u8; 260],
        3,
        &[-128i8; 600],
        4,
        far,
        4,
    );
    show(rt, "scaled_row8", &[rows[510], rows[511]])
}

// A column by that filter, which fetches all eight pixels, and one without a filter.
fn run_scaled16(rt: &impl Print) -> io::Result<()> {
    let near = Columns {
        start: 1023,
        step: 1,
    };
    let mut rows = [0i16; 512];
    scaled_row(
        &mut rows,
        510,
        2,
        &[65535u16; 8],
        3,
        &[127i8; 600],
        4,
        near,
        2,
    );
    show(rt, "scaled_row16", &[rows[510], rows[511]])
}

// 64 columns of the longest step; the rows have the first two.
fn run_scaled_bilin(rt: &impl Print) -> io::Result<()> {
    let mut pixels = [0u8; 64];
    let mut fractions = [0u8; 64];
    tabulate_columns(&mut pixels, &mut fractions, 64, 1023, 4096);
    show(rt, "tabulate_columns", &[pixels[63], fractions[63]])?;
    let mut mid = [0i16; 2];
    u8::scaled_bilin_row(&mut mid, &[255u8; 6], 0, &pixels, &fractions, 4);
    show(rt, "scaled_bilin_row8", &mid)?;
    u16::scaled_bilin_row(&mut mid, &[65535u16; 6], 0, &pixels, &fractions, 2);
    show(rt, "scaled_bilin_row16", &mid)
}

fn main(rt: HostRuntime) -> io::Result<()> {
    run_copy(&rt)?;
    run_combine(&rt)?;
    run_blend(&rt)?;
    run_mask(&rt)?;
    run_edge(&rt)?;
    run_subpel(&rt)?;
    run_subpel_mids(&rt)?;
    run_bilinear(&rt)?;
    run_bilinear_mids(&rt)?;
    run_search(&rt)?;
    run_warp(&rt)?;
    run_scaled8(&rt)?;
    run_scaled16(&rt)?;
    run_scaled_bilin(&rt)
}
