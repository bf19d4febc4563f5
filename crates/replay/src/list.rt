// Numbers and contents of one record of the list, read at their places. Past the record's end stand zeros.
ghost use Rattle.std.specs.Prelude.{◌≤◌};

use blocks::refuse::{Refusal, number_told};
use rows::numbers::{keep16, keep32};

// Places of the longest buffer.
pub const ROOM: usize = 40000;

// What a result holds before the call, so that one that isn't written is seen.
pub const UNSET: i32 = 1515870810;

pub const UNSET_PLACE: usize = 1515870810;

// A buffer of the record: how many places it has, where the values stand that it comes with, and where those stand that it is left with.
#[derive(Clone, Copy)]
pub(crate) struct Layout {
    pub len: u16,
    pub period: u16,
    pub came: u16,
    pub stride: u16,
    pub row: u16,
    pub rows: u16,
    pub left: u16,
}

// How many places are filled: none of a buffer that is longer than the room.
pub(crate) fn places(c: Layout, room: usize) -> u16
    ensures { result ≤ room }
{
    if c.len as usize <= room { c.len } else { 0 }
}

// Value k of those that begin at a place.
#[derive(Clone, Copy)]
pub(crate) struct Value {
    pub first: u16,
    pub k: u32,
}

// Numbers of the record that stand one after the other.
#[derive(Clone, Copy)]
pub(crate) struct Sizes {
    pub a: usize,
    pub b: usize,
    pub c: usize,
    pub d: usize,
}

#[derive(Clone, Copy)]
pub(crate) struct Ints {
    pub a: i32,
    pub b: i32,
    pub c: i32,
}

#[derive(Clone, Copy)]
pub(crate) struct Shorts {
    pub a: i16,
    pub b: i16,
    pub c: i16,
    pub d: i16,
}

pub(crate) fn byte(r: &[u8], p: usize) -> u8 {
    if p < r.len() { r[p] } else { 0 }
}

fn half(r: &[u8], p: usize) -> u16 {
    if p < r.len() {
        u16::from_le_bytes([byte(r, p), byte(r, p + 1)])
    } else {
        0
    }
}

// The bytes of number k of the record.
fn bytes_of(r: &[u8], k: u8) -> [u8; 8] {
    let p = 60 + 8 * (k as usize);
    [
        byte(r, p),
        byte(r, p + 1),
        byte(r, p + 2),
        byte(r, p + 3),
        byte(r, p + 4),
        byte(r, p + 5),
        byte(r, p + 6),
        byte(r, p + 7),
    ]
}

// Number k of the record, without sign and with it.
pub(crate) fn size(r: &[u8], k: u8) -> usize {
    usize::from_le_bytes(bytes_of(r, k))
}

pub(crate) fn wide(r: &[u8], k: u8) -> i64 {
    i64::from_le_bytes(bytes_of(r, k))
}

pub(crate) fn int(r: &[u8], k: u8) -> i32 {
    keep32(wide(r, k))
}

pub(crate) fn short(r: &[u8], k: u8) -> i16 {
    keep16(int(r, k))
}

pub(crate) fn flag(r: &[u8], k: u8) -> bool {
    size(r, k) != 0
}

pub(crate) fn word(r: &[u8], k: u8) -> u32 {
    let b = bytes_of(r, k);
    u32::from_le_bytes([b[0], b[1], b[2], b[3]])
}

// The record's numbers from number k on.
pub(crate) fn sizes_at(r: &[u8], k: u8) -> Sizes
    requires { k ≤ 100 }
{
    Sizes {
        a: size(r, k),
        b: size(r, k + 1),
        c: size(r, k + 2),
        d: size(r, k + 3),
    }
}

pub(crate) fn ints_at(r: &[u8], k: u8) -> Ints
    requires { k ≤ 100 }
{
    Ints {
        a: int(r, k),
        b: int(r, k + 1),
        c: int(r, k + 2),
    }
}

pub(crate) fn shorts_at(r: &[u8], k: u8) -> Shorts
    requires { k ≤ 100 }
{
    Shorts {
        a: short(r, k),
        b: short(r, k + 1),
        c: short(r, k + 2),
        d: short(r, k + 3),
    }
}

// The number of the function that the record calls, and the number that it is to answer.
pub(crate) fn number(r: &[u8]) -> u16 {
    half(r, 0)
}

pub(crate) fn due(r: &[u8]) -> u16 {
    half(r, 2)
}

// Whether a call answered the number that is due.
pub(crate) fn told(r: &[u8], answer: Result<(), Refusal>) -> bool {
    is_due(r, number_told(answer))
}

pub(crate) fn is_due(r: &[u8], number: u32) -> bool {
    number == due(r) as u32
}

// The record's buffer b.
pub(crate) fn layout_of(r: &[u8], b: u8) -> Layout {
    let p = 4 + 14 * (b as usize);
    Layout {
        len: half(r, p),
        period: half(r, p + 2),
        came: half(r, p + 4),
        stride: half(r, p + 6),
        row: half(r, p + 8),
        rows: half(r, p + 10),
        left: half(r, p + 12),
    }
}

// What place i comes with: the values repeat.
pub(crate) fn came(c: Layout, i: u16) -> Value {
    let n = c.period;
    let k = if n == 0 { 0 } else { i % n };
    Value {
        first: c.came,
        k: k as u32,
    }
}

// The place of column x of row y.
fn nth(row: u16, x: u16, y: u16) -> u32 {
    y as u32 * row as u32 + x as u32
}

// What place i is left with: values of their own in the first columns of the first rows, else what it came with.
pub(crate) fn left(c: Layout, i: u16) -> Value {
    let n = c.stride;
    if n == 0 {
        return came(c, i);
    }
    let x = i % n;
    let y = i / n;
    if (x < c.row) & (y < c.rows) {
        Value {
            first: c.left,
            k: nth(c.row, x, y),
        }
    } else {
        came(c, i)
    }
}

// The value as each type has it.
pub(crate) fn value8(r: &[u8], v: Value) -> u8 {
    byte(r, v.first as usize + v.k as usize)
}

pub(crate) fn value16(r: &[u8], v: Value) -> u16 {
    half(r, v.first as usize + 2 * (v.k as usize))
}

pub(crate) fn mid(r: &[u8], v: Value) -> i16 {
    keep16(value16(r, v) as i32)
}

pub(crate) fn tap(r: &[u8], v: Value) -> i8 {
    let b = value8(r, v);
    ((b / 2) as i8) << 1 | (b % 2) as i8
}
